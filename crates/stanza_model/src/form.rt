//! Submitted data forms (XEP-0004).
ghost use Rattle.std.specs.Prelude.{◌≡◌, ◌↔◌, IfOk, Err, None, Some};
ghost use Rattle.stanza_model.specs.Forms.{field_of, fields_of, form_of, is_part, is_submitted, name_of, values_of};
ghost use Rattle.stanza_model.specs.declared.form.FormFault.TheVariants.{NotSubmit};

use stanza_tree::{Element, NoMemory, Node, Several, Text};
use std::alloc::{AllocError, Global};

/// The namespace of data forms (XEP-0004, 3).
const FORM_SPACE: &[u8] = b"jabber:x:data";

/// A field of a form (XEP-0004, 3.2): the value of its `var`, empty where it has none, and its values in their order.
#[derive(Drop)]
pub struct Field {
    pub name: Text,
    pub values: Several<Text>,
}

/// A submitted form (XEP-0004, 3.1): its fields in their order. Two may have one name.
#[derive(Drop)]
pub struct DataForm {
    pub fields: Several<Field>,
}

/// Why an element was not read as a form.
#[derive(Clone, Copy, Debug, PartialEq, Eq)]
pub enum FormFault {
    /// There was no memory for the fields.
    NoMemory,
    /// It is not `x` in `jabber:x:data` of the type `submit` (XEP-0004, 3.1).
    NotSubmit,
}

impl From<AllocError> for FormFault {
    ghost use Rattle.stanza_model.specs.declared.form.FormFault.TheVariants as fault;

    ghost from_gives = { λ _ f. f ≡ fault.NoMemory };

    fn from(_error: AllocError) -> FormFault {
        FormFault::NoMemory
    }
}

impl DataForm {
    /// The form that an element submits: its fields are its child elements `field`, and the values of a field the words of each of
    /// its child elements `value` (XEP-0004, 3.2). Costs one copy of these texts. All else in the element is ignored.
    pub fn read(alloc: Global, x: &Element) -> Result<DataForm, FormFault>
        ensures ok { IfOk result (λ f. form_of x.now ≡ Some f) }
        ensures refused { result ≡ Err NotSubmit ↔ form_of x.now ≡ None }
    {
        if !is_submitted(x) {
            return Err(FormFault::NotSubmit);
        }
        let fields = Several::of(read_fields(alloc, x)?);
        Ok(DataForm { fields })
    }
}

fn is_submitted(x: &Element) -> bool
    ensures { result ≡ is_submitted x.now }
{
    match x.attr(b"type") {
        Some(value) => is_part(x, b"x") && value.bytes() == b"submit".as_slice(),
        None => false,
    }
}

/// Whether an element has that name in the namespace of data forms.
fn is_part(e: &Element, local: &[u8]) -> bool
    ensures { result ≡ is_part local.now e.now }
{
    e.name.space.bytes() == FORM_SPACE && e.name.local.bytes() == local
}

fn read_fields(alloc: Global, x: &Element) -> Result<Vec<Field>, NoMemory>
    ensures { IfOk result (λ v. v.items ≡ fields_of x.now.children) }
{
    let mut fields = Vec::new(alloc);
    for node in x.children.slice() {
        if let Node::Child(e) = node {
            if is_part(e, b"field") {
                fields.push(read_field(alloc, e)?)?;
            }
        }
    }
    Ok(fields)
}

fn read_field(alloc: Global, field: &Element) -> Result<Field, NoMemory>
    ensures { IfOk result (λ f. f ≡ field_of field.now) }
{
    let name = read_name(alloc, field)?;
    let values = Several::of(read_values(alloc, field)?);
    Ok(Field { name, values })
}

fn read_name(alloc: Global, field: &Element) -> Result<Text, NoMemory>
    ensures { IfOk result (λ t. t ≡ name_of field.now.attrs) }
{
    match field.attr(b"var") {
        Some(name) => name.copy(alloc),
        None => Ok(Text::empty(alloc)),
    }
}

fn read_values(alloc: Global, field: &Element) -> Result<Vec<Text>, NoMemory>
    ensures { IfOk result (λ v. v.items ≡ values_of field.now.children) }
{
    let mut values = Vec::new(alloc);
    for node in field.children.slice() {
        if let Node::Child(e) = node {
            if is_part(e, b"value") {
                values.push(e.words(alloc)?)?;
            }
        }
    }
    Ok(values)
}
