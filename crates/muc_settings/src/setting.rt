//! The settings of a room, as a form has them (XEP-0045, 10.2 and 15.5; XEP-0004, 3).
ghost use Rattle.std.specs.Prelude.{◌≡◌, ◌∷◌, ◌++◌, [], map, IfOk, OnOk};
ghost use Rattle.std.specs.Fmt.{decimal};
ghost use Rattle.std.specs.List.{find};
ghost use Rattle.std.specs.Option.{option_copied};
ghost use Rattle.muc_settings.specs.Settings.{all_settings, choice, choice_node, choices_of, config_form, field_element, field_node, flag};
ghost use Rattle.muc_settings.specs.Settings.{is_guarded, is_named, most_choices, setting_name, setting_named, setting_type, value_element, value_of};
ghost use Rattle.muc_settings.specs.Settings.{whois_choices, whois_name};

use stanza_model::Config;
use stanza_model::make::{element_of, one_child, push_attr, text_of};
use stanza_tree::{Element, NoMemory, Node, Text};
use std::alloc::Global;

/// The namespace of data forms (XEP-0004, 3).
pub const FORM_SPACE: &str = "jabber:x:data";

/// The type of a form for a room's configuration (XEP-0045, 15.5).
pub(crate) const ROOMCONFIG: &str = "http://jabber.org/protocol/muc#roomconfig";

/// A setting of a room, or the type of the form that has them.
#[derive(Clone, Copy, Debug, PartialEq, Eq)]
pub enum Setting {
    FormType,
    Title,
    /// Whether it stays when its last occupant leaves.
    Persistent,
    MembersOnly,
    Moderated,
    /// Whether participants may change the subject.
    ChangeSubject,
    /// Who sees the addresses of occupants.
    Whois,
    /// Whether a password is asked for.
    Guarded,
    /// The password.
    Secret,
    /// The most occupants.
    Most,
}

/// All settings, in the order in which the form has them.
fn all_settings() -> [Setting; 10]
    ensures { result ≡ all_settings }
{
    [
        Setting::FormType,
        Setting::Title,
        Setting::Persistent,
        Setting::MembersOnly,
        Setting::Moderated,
        Setting::ChangeSubject,
        Setting::Whois,
        Setting::Guarded,
        Setting::Secret,
        Setting::Most,
    ]
}

/// The name of its field (XEP-0045, 15.5).
fn setting_name(setting: Setting) -> &'static str
    ensures { result.now ≡ setting_name setting }
{
    match setting {
        Setting::FormType => "FORM_TYPE",
        Setting::Title => "muc#roomconfig_roomname",
        Setting::Persistent => "muc#roomconfig_persistentroom",
        Setting::MembersOnly => "muc#roomconfig_membersonly",
        Setting::Moderated => "muc#roomconfig_moderatedroom",
        Setting::ChangeSubject => "muc#roomconfig_changesubject",
        Setting::Whois => "muc#roomconfig_whois",
        Setting::Guarded => "muc#roomconfig_passwordprotectedroom",
        Setting::Secret => "muc#roomconfig_roomsecret",
        Setting::Most => "muc#roomconfig_maxusers",
    }
}

pub(crate) fn is_named(name: &[u8], setting: &Setting) -> bool
    ensures { result ≡ is_named name.now setting.now }
{
    setting_name(*setting).as_bytes() == name
}

fn find_named<'a>(name: &[u8], settings: &'a [Setting]) -> Option<&'a Setting>
    ensures { option_copied result ≡ find (is_named name.now) settings.entry.now }
{
    settings.iter().find(|s| is_named(name, s))
}

/// The setting whose field has this name.
pub(crate) fn setting_named(name: &[u8]) -> Option<Setting>
    ensures { result ≡ setting_named name.now }
{
    let settings = all_settings();
    match find_named(name, &settings) {
        Some(setting) => Some(*setting),
        None => None,
    }
}

/// The type of its field (XEP-0004, 3.3).
fn setting_type(setting: Setting) -> &'static str
    ensures { result.now ≡ setting_type setting }
{
    match setting {
        Setting::FormType => "hidden",
        Setting::Title => "text-single",
        Setting::Persistent => "boolean",
        Setting::MembersOnly => "boolean",
        Setting::Moderated => "boolean",
        Setting::ChangeSubject => "boolean",
        Setting::Whois => "list-single",
        Setting::Guarded => "boolean",
        Setting::Secret => "text-private",
        Setting::Most => "list-single",
    }
}

fn flag(is: bool) -> &'static str
    ensures { result.now ≡ flag is }
{
    if is { "1" } else { "0" }
}

fn whois_name(anyone: bool) -> &'static str
    ensures { result.now ≡ whois_name anyone }
{
    if anyone { "anyone" } else { "moderators" }
}

/// Whether a room so configured asks for a password.
pub(crate) fn is_guarded(config: &Config) -> bool
    ensures { result ≡ is_guarded config.now }
{
    !config.secret.bytes().is_empty()
}

fn decimal_text(alloc: Global, number: u32) -> Result<Text, NoMemory>
    ensures { IfOk result (λ t. t ≡ decimal number) }
{
    Ok(Text::of_string(format!(in alloc; "{}", number)?))
}

/// The value of a setting.
fn value_of(alloc: Global, config: &Config, setting: Setting) -> Result<Text, NoMemory>
    ensures { IfOk result (λ t. t ≡ value_of config.now setting) }
{
    match setting {
        Setting::FormType => text_of(alloc, ROOMCONFIG),
        Setting::Title => config.title.copy(alloc),
        Setting::Persistent => text_of(alloc, flag(config.persistent)),
        Setting::MembersOnly => text_of(alloc, flag(config.members_only)),
        Setting::Moderated => text_of(alloc, flag(config.moderated)),
        Setting::ChangeSubject => text_of(alloc, flag(config.change_subject)),
        Setting::Whois => text_of(alloc, whois_name(config.anyone)),
        Setting::Guarded => text_of(alloc, flag(is_guarded(config))),
        Setting::Secret => config.secret.copy(alloc),
        Setting::Most => decimal_text(alloc, config.max),
    }
}

/// `<value>W</value>`.
fn value_element(alloc: Global, value: Text) -> Result<Element, NoMemory>
    ensures { IfOk result (λ e. e ≡ value_element value) }
{
    let mut words = Vec::new(alloc);
    words.push(Node::Words(value))?;
    element_of(alloc, FORM_SPACE, "value", Vec::new(alloc), words)
}

/// `<option><value>W</value></option>`.
fn choice(alloc: Global, value: &str) -> Result<Element, NoMemory>
    ensures { IfOk result (λ e. e ≡ choice value.now) }
{
    let value = value_element(alloc, text_of(alloc, value)?)?;
    let content = one_child(alloc, value)?;
    element_of(alloc, FORM_SPACE, "option", Vec::new(alloc), content)
}

fn push_choices(alloc: Global, values: &[&str], nodes: &mut Vec<Node>) -> Result<(), NoMemory>
    ensures { OnOk result (nodes.new.items ≡ nodes.old.items ++ map choice_node (map (λ v. v.now) values.now)) }
{
    for value in values {
        nodes.push(Node::Child(choice(alloc, value)?))?;
    }
    Ok(())
}

fn push_two(alloc: Global, first: &str, second: &str, nodes: &mut Vec<Node>) -> Result<(), NoMemory>
    ensures { OnOk result (nodes.new.items ≡ nodes.old.items ++ choice_node first.now ∷ choice_node second.now ∷ []) }
{
    nodes.push(Node::Child(choice(alloc, first)?))?;
    nodes.push(Node::Child(choice(alloc, second)?))?;
    Ok(())
}

/// Adds what the form offers for who sees addresses.
fn push_whois(alloc: Global, nodes: &mut Vec<Node>) -> Result<(), NoMemory>
    ensures { OnOk result (nodes.new.items ≡ nodes.old.items ++ map choice_node whois_choices) }
{
    push_two(alloc, "moderators", "anyone", nodes)
}

/// Adds what the form offers for the most occupants.
fn push_most(alloc: Global, nodes: &mut Vec<Node>) -> Result<(), NoMemory>
    ensures { OnOk result (nodes.new.items ≡ nodes.old.items ++ map choice_node most_choices) }
{
    push_choices(alloc, &["10", "20", "30", "50", "100", "256"], nodes)
}

/// Adds what the form offers for a setting.
fn push_choices_of(alloc: Global, setting: Setting, nodes: &mut Vec<Node>) -> Result<(), NoMemory>
    ensures { OnOk result (nodes.new.items ≡ nodes.old.items ++ map choice_node (choices_of setting)) }
{
    match setting {
        Setting::Whois => push_whois(alloc, nodes),
        Setting::Most => push_most(alloc, nodes),
        _ => Ok(()),
    }
}

/// `<field type='T' var='V'>` with the value, and then what is offered.
fn field_element(alloc: Global, config: &Config, setting: Setting) -> Result<Element, NoMemory>
    ensures { IfOk result (λ e. e ≡ field_element config.now setting) }
{
    let mut attrs = Vec::new(alloc);
    push_attr(
        &mut attrs,
        alloc,
        "type",
        text_of(alloc, setting_type(setting))?,
    )?;
    push_attr(
        &mut attrs,
        alloc,
        "var",
        text_of(alloc, setting_name(setting))?,
    )?;
    let value = value_of(alloc, config, setting)?;
    let mut nodes = one_child(alloc, value_element(alloc, value)?)?;
    push_choices_of(alloc, setting, &mut nodes)?;
    element_of(alloc, FORM_SPACE, "field", attrs, nodes)
}

fn field_nodes(alloc: Global, config: &Config, settings: &[Setting]) -> Result<Vec<Node>, NoMemory>
    ensures { IfOk result (λ nodes. nodes.items ≡ map (field_node config.now) settings.now) }
{
    let mut nodes = Vec::new(alloc);
    for setting in settings {
        nodes.push(Node::Child(field_element(alloc, config, *setting)?))?;
    }
    Ok(nodes)
}

/// The form by which a room is configured, with its configuration (XEP-0045, 10.2).
pub fn config_form(alloc: Global, config: &Config) -> Result<Element, NoMemory>
    ensures { IfOk result (λ e. e ≡ config_form config.now) }
{
    let settings = all_settings();
    let nodes = field_nodes(alloc, config, &settings)?;
    let mut attrs = Vec::new(alloc);
    push_attr(&mut attrs, alloc, "type", text_of(alloc, "form")?)?;
    element_of(alloc, FORM_SPACE, "x", attrs, nodes)
}
