//! Elements: a name, attributes, and children that are elements or words.
ghost use Rattle.std.specs.Prelude.{◌≡◌, [], IfOk, IfErr, OnErr, IsUtf8, OnOk};
ghost use Rattle.std.specs.Option.{option_copied};
ghost use Rattle.stanza_tree.specs.Attributes.{attr_of, attr_place, with_attr};
ghost use Rattle.stanza_tree.specs.Faults.{IsNameFault};

use crate::several::Several;
use crate::text::{NoMemory, Text, TextFault};
use std::alloc::Global;
use std::mem;

/// A name and the namespace that it is in (Namespaces in XML 1.0). An empty `space` is no namespace.
#[derive(Drop)]
pub struct Name {
    pub space: Text,
    pub local: Text,
}

/// An attribute, without the quotes and escapes of its spelling.
#[derive(Drop)]
pub struct Attr {
    pub name: Name,
    pub value: Text,
}

/// An element. Namespace declarations are not among its attributes.
#[cycle(tree)]
#[derive(Drop)]
pub struct Element {
    pub name: Name,
    pub attrs: Several<Attr>,
    pub children: Several<Node>,
}

/// A child of an element.
#[cycle(tree)]
#[derive(Drop)]
pub enum Node {
    Child(Element),
    /// Character data, without the escapes of its spelling.
    Words(Text),
}

impl Name {
    /// Another name of the same bytes.
    pub fn copy(&self, alloc: Global) -> Result<Name, NoMemory>
        ensures { IfOk result (λ n. n ≡ self.now) }
    {
        Ok(Name {
            space: self.space.copy(alloc)?,
            local: self.local.copy(alloc)?,
        })
    }
}

fn copy_attrs(alloc: Global, attrs: &[Attr]) -> Result<Vec<Attr>, NoMemory>
    ensures { IfOk result (λ v. v.items ≡ attrs.now) }
{
    let mut copies = Vec::new(alloc);
    for attr in attrs {
        let name = attr.name.copy(alloc)?;
        let value = attr.value.copy(alloc)?;
        copies.push(Attr { name, value })?;
    }
    Ok(copies)
}

/// The place of the first attribute of that name in no namespace, or the number of all.
fn place_of(attrs: &[Attr], local: &[u8]) -> usize
    ensures { result ≡ attr_place local.now attrs.now }
{
    for (i, attr) in attrs.iter().enumerate() {
        if attr.name.local.bytes() == local && attr.name.space.bytes().is_empty() {
            return i;
        }
    }
    attrs.len()
}

fn set_value(
    attrs: &mut Vec<Attr>,
    alloc: Global,
    local: &[u8],
    value: Text,
) -> Result<(), NoMemory>
    requires { IsUtf8 local.now }
    ensures ok { OnOk result (attrs.new.items ≡ with_attr local.now value attrs.old.items) }
    ensures err { OnErr result (attrs.new.items ≡ attrs.old.items) }
{
    let place = place_of(attrs.as_slice(), local);
    if place < attrs.len() {
        attrs[place].value = value;
        return Ok(());
    }
    let name = Name {
        space: Text::empty(alloc),
        local: Text::of_utf8(alloc, local)?,
    };
    attrs.push(Attr { name, value })?;
    Ok(())
}

impl Element {
    /// An element of this name without attributes and children. The fault is that of the namespace, then that of the name.
    pub fn new(alloc: Global, space: &[u8], local: &[u8]) -> Result<Element, TextFault>
        ensures name { IfOk result (λ e. e.name ≡ record { space = space.now; local = local.now }) }
        ensures bare { IfOk result (λ e. (e.attrs ≡ []) × (e.children ≡ [])) }
        ensures utf8 { OnOk result (IsUtf8 space.now × IsUtf8 local.now) }
        ensures fault { IfErr result (IsNameFault space.now local.now) }
    {
        let space = Text::of(alloc, space)?;
        let local = Text::of(alloc, local)?;
        Ok(Element {
            name: Name { space, local },
            attrs: Several::of(Vec::new(alloc)),
            children: Several::of(Vec::new(alloc)),
        })
    }

    /// Another element of the same tree. Costs one copy of all its texts.
    pub fn copy(&self, alloc: Global) -> Result<Element, NoMemory>
        ensures { IfOk result (λ e. e ≡ self.now) }
    {
        let name = self.name.copy(alloc)?;
        let attrs = copy_attrs(alloc, self.attrs.slice())?;
        let mut children = Vec::new(alloc);
        for node in self.children.slice() {
            let copied = match node {
                Node::Child(child) => Node::Child(child.copy(alloc)?),
                Node::Words(words) => Node::Words(words.copy(alloc)?),
            };
            children.push(copied)?;
        }
        Ok(Element {
            name,
            attrs: Several::of(attrs),
            children: Several::of(children),
        })
    }

    /// Sets the attribute of that name in no namespace: replaces its value in its place, or adds it last.
    pub fn set_attr(&mut self, alloc: Global, local: &[u8], value: Text) -> Result<(), NoMemory>
        requires { IsUtf8 local.now }
        ensures ok { OnOk result (self.new ≡ record self.old { attrs = with_attr local.now value self.old.attrs }) }
        ensures err { OnErr result (self.new ≡ self.old) }
    {
        let mut attrs = mem::replace(&mut self.attrs, Several::of(Vec::new(alloc))).into_vec();
        let done = set_value(&mut attrs, alloc, local, value);
        self.attrs = Several::of(attrs);
        done
    }

    /// The value of the first attribute of that name in no namespace.
    pub fn attr(&self, local: &[u8]) -> Option<&Text>
        ensures { option_copied result ≡ attr_of local.now self.now.attrs }
    {
        for attr in self.attrs.slice() {
            if attr.name.local.bytes() == local && attr.name.space.bytes().is_empty() {
                return Some(&attr.value);
            }
        }
        None
    }
}
