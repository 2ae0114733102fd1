//! What a submitted form makes of a room's configuration (XEP-0045, 10.2 and 15.5; XEP-0004, 3).
ghost use Rattle.std.specs.Prelude.{◌≡◌, IfOk, OnOk};
ghost use Rattle.std.specs.Char.{is_ascii_digit};
ghost use Rattle.std.specs.List.{list_all, list_any};
ghost use Rattle.muc_settings.specs.Drafts.{config_of, draft_of, first_value, fits, is_anyone, is_flag, is_most, is_short, is_whois, is_wrong};
ghost use Rattle.muc_settings.specs.Drafts.{is_yes, lacks_password, lacks_type, names_type, number_of, put, put_all, put_by, value_fits};
ghost use Rattle.muc_settings.specs.Settings.{setting_named};

use crate::setting::{ROOMCONFIG, Setting, is_guarded, is_named, setting_named};
use muc_room::copy_config;
use stanza_model::{Config, Field};
use stanza_tree::{NoMemory, Text};
use std::alloc::Global;

/// The most bytes of a title, and of a password.
const MOST_BYTES: usize = 256;

/// A configuration that a form is read into.
#[derive(Drop)]
pub struct Draft {
    pub config: Config,
    /// Whether a password is to be asked for.
    pub guarded: bool,
}

fn is_short(value: &[u8]) -> bool
    ensures { result ≡ is_short value.now }
{
    value.len() <= MOST_BYTES
}

/// Whether a value is a true boolean: `1` or `true`.
fn is_yes(value: &[u8]) -> bool
    ensures { result ≡ is_yes value.now }
{
    value == b"1".as_slice() || value == b"true".as_slice()
}

fn is_flag(value: &[u8]) -> bool
    ensures { result ≡ is_flag value.now }
{
    is_yes(value) || value == b"0".as_slice() || value == b"false".as_slice()
}

fn is_anyone(value: &[u8]) -> bool
    ensures { result ≡ is_anyone value.now }
{
    value == b"anyone".as_slice()
}

fn is_whois(value: &[u8]) -> bool
    ensures { result ≡ is_whois value.now }
{
    is_anyone(value) || value == b"moderators".as_slice()
}

/// The number that decimal digits write; 1000 stands for more.
fn number_of(digits: &[u8]) -> u32
    ensures { result ≡ number_of digits.now }
{
    let mut n = 0u32;
    for digit in digits {
        n = (n * 10 + (*digit).saturating_sub(48) as u32).min(1000);
    }
    n
}

fn are_digits(value: &[u8]) -> bool
    ensures { result ≡ list_all is_ascii_digit value.now }
{
    value.iter().all(|b| b.is_ascii_digit())
}

/// Whether a value is a number from 1 to 256.
fn is_most(value: &[u8]) -> bool
    ensures { result ≡ is_most value.now }
{
    are_digits(value) && number_of(value) >= 1 && number_of(value) <= 256
}

/// Whether a setting can have this value.
fn fits(setting: Setting, value: &[u8]) -> bool
    ensures { result ≡ fits setting value.now }
{
    match setting {
        Setting::FormType => value == ROOMCONFIG.as_bytes(),
        Setting::Title => is_short(value),
        Setting::Persistent => is_flag(value),
        Setting::MembersOnly => is_flag(value),
        Setting::Moderated => is_flag(value),
        Setting::ChangeSubject => is_flag(value),
        Setting::Whois => is_whois(value),
        Setting::Guarded => is_flag(value),
        Setting::Secret => is_short(value),
        Setting::Most => is_most(value),
    }
}

fn first_value(values: &[Text]) -> &[u8]
    ensures { result.now ≡ first_value values.now }
{
    match values.first() {
        Some(value) => value.bytes(),
        None => &[],
    }
}

fn first_text(alloc: Global, values: &[Text]) -> Result<Text, NoMemory>
    ensures { IfOk result (λ t. t ≡ first_value values.now) }
{
    match values.first() {
        Some(value) => value.copy(alloc),
        None => Ok(Text::empty(alloc)),
    }
}

fn value_fits(setting: Setting, values: &[Text]) -> bool
    ensures { result ≡ value_fits setting values.now }
{
    values.len() == 1 && fits(setting, first_value(values))
}

/// Whether a field is one of the room's and has a value that it can't have.
fn is_wrong(field: &Field) -> bool
    ensures { result ≡ is_wrong field.now }
{
    match setting_named(field.name.bytes()) {
        Some(setting) => !value_fits(setting, field.values.slice()),
        None => false,
    }
}

/// Whether a field of a form has a value that it can't have.
pub fn has_wrong(fields: &[Field]) -> bool
    ensures { result ≡ list_any is_wrong fields.now }
{
    fields.iter().any(|field| is_wrong(field))
}

fn names_type(field: &Field) -> bool
    ensures { result ≡ names_type field.now }
{
    is_named(field.name.bytes(), &Setting::FormType)
}

fn has_type(fields: &[Field]) -> bool
    ensures { result ≡ list_any names_type fields.now }
{
    fields.iter().any(|field| names_type(field))
}

/// Whether there are fields, and none says of which type the form is (XEP-0068, 3.1).
pub fn lacks_type(fields: &[Field]) -> bool
    ensures { result ≡ lacks_type fields.now }
{
    !fields.is_empty() && !has_type(fields)
}

/// The room's configuration, as the form begins with it.
fn draft_of(alloc: Global, config: &Config) -> Result<Draft, NoMemory>
    ensures { IfOk result (λ d. d ≡ draft_of config.now) }
{
    Ok(Draft {
        config: copy_config(alloc, config)?,
        guarded: is_guarded(config),
    })
}

/// A setting has this value, which fits it.
fn put(setting: Setting, value: Text, draft: &mut Draft)
    ensures { draft.new ≡ put setting value draft.old }
{
    match setting {
        Setting::FormType => {}
        Setting::Title => draft.config.title = value,
        Setting::Persistent => draft.config.persistent = is_yes(value.bytes()),
        Setting::MembersOnly => draft.config.members_only = is_yes(value.bytes()),
        Setting::Moderated => draft.config.moderated = is_yes(value.bytes()),
        Setting::ChangeSubject => draft.config.change_subject = is_yes(value.bytes()),
        Setting::Whois => draft.config.anyone = is_anyone(value.bytes()),
        Setting::Guarded => draft.guarded = is_yes(value.bytes()),
        Setting::Secret => draft.config.secret = value,
        Setting::Most => draft.config.max = number_of(value.bytes()),
    }
}

fn put_field(alloc: Global, field: &Field, draft: &mut Draft) -> Result<(), NoMemory>
    ensures { OnOk result (draft.new ≡ put_by (setting_named field.now.name) field.now.values draft.old) }
{
    match setting_named(field.name.bytes()) {
        Some(setting) => {
            let value = first_text(alloc, field.values.slice())?;
            put(setting, value, draft);
            Ok(())
        }
        None => Ok(()),
    }
}

fn put_fields(alloc: Global, fields: &[Field], draft: &mut Draft) -> Result<(), NoMemory>
    ensures { OnOk result (draft.new ≡ put_all fields.now draft.old) }
{
    for field in fields {
        put_field(alloc, field, draft)?;
    }
    Ok(())
}

/// A configuration into which these fields were read, one after another.
pub fn put_all(alloc: Global, config: &Config, fields: &[Field]) -> Result<Draft, NoMemory>
    ensures { IfOk result (λ d. d ≡ put_all fields.now (draft_of config.now)) }
{
    let mut draft = draft_of(alloc, config)?;
    put_fields(alloc, fields, &mut draft)?;
    Ok(draft)
}

/// Whether a password is to be asked for, and there is none.
pub fn lacks_password(draft: &Draft) -> bool
    ensures { result ≡ lacks_password draft.now }
{
    draft.guarded && draft.config.secret.bytes().is_empty()
}

/// The configuration that was read. Where no password is to be asked for, it has none.
pub fn config_of(alloc: Global, draft: Draft) -> Config
    ensures { result ≡ config_of draft }
{
    let Draft {
        mut config,
        guarded,
    } = draft;
    if guarded {
        return config;
    }
    config.secret = Text::empty(alloc);
    config
}
