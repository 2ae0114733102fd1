//! What the tokens of a byte do to the elements that are being made. Takes no memory: it was taken before.

ghost use Rattle.std.specs.Prelude.{◌≡◌, ◌<◌, ◌≤◌, ◌+◌, ◌*◌, [], ◌∷◌, ◌++◌, length, true, None, Some, vec_len};
ghost use Rattle.std.specs.Prelude.{vec_capacity, string_bytes, string_len, string_capacity};
ghost use Rattle.std.specs.Option.{is_some};
ghost use Rattle.stream_grammar.specs.grammar.Elements.{with_words};
ghost use Rattle.stream_lex.specs.declared.Token.TheVariants as token;
ghost use Rattle.stream_grammar.specs.machine.Building.{build, build_all, last_closed, closed_in, ended_in, with_child};
ghost use Rattle.stream_grammar.specs.machine.Gathering.{nothing_gathered, gather};
ghost use Rattle.stream_grammar.specs.machine.Telling.{are_words};
ghost use Rattle.stream_frames.specs.declared.built.Ready.TheVariants as ready;
ghost use Rattle.stream_frames.specs.Builds.{tag_of, building, HasChildRoom, IsOfTag, IsReady, IsOfStart, resolved_in, begun_in, begun_by, hollow_by, applied, open_element, open_parent};

use crate::built::{Beginning, Builder, Heading, OpenElement, Parent, Ready};
use crate::tags::{Resolved, element};
use stanza_tree::{Element, FEW, Node, Several, Text};
use std::alloc::Global;
use std::mem;
use stream_grammar::{Binding, Item, Written};
use stream_lex::Token;

/// Words become a child, unless there are none.
fn push_words(children: &mut Vec<Node>, words: String)
    requires { vec_len children.old < vec_capacity children.old }
    ensures items { children.new.items ≡ children.old.items ++ with_words (string_bytes words) [] }
    ensures len { vec_len children.new ≤ vec_len children.old + 1 }
    ensures capacity { vec_capacity children.new ≡ vec_capacity children.old }
{
    if !words.is_empty() {
        children.push_reserved(Node::Words(Text::of_string(words)));
    }
}

/// A value of at most so many bytes, which most namespaces have, is copied, so that the room for the next one stays.
const COPIED_VALUE: usize = 64;

/// A value as a text, which then is empty. A short one is copied, so that the room for it stays; else its bytes become the text's.
fn take_value(alloc: Global, value: &mut String) -> Text
    ensures text { result ≡ string_bytes value.old }
    ensures emptied { string_bytes value.new ≡ [] }
{
    if value.len() <= COPIED_VALUE {
        if let Ok(text) = Text::of_str(alloc, value.as_str()) {
            value.clear();
            return text;
        }
    }
    Text::of_string(mem::replace(value, String::new(alloc)))
}

/// An element at its end, after its last words.
fn closed_element(element: OpenElement, words: String) -> Element
    requires { vec_len element.children < vec_capacity element.children }
    ensures { result ≡ last_closed (string_bytes words) (open_element element) }
{
    let OpenElement {
        name,
        attrs,
        mut children,
    } = element;
    push_words(&mut children, words);
    let children = Several::of(children);
    Element {
        name,
        attrs,
        children,
    }
}

/// An element with a child more.
fn with_closed(parent: Parent, element: Element) -> OpenElement
    ensures { open_element result ≡ with_child [] element (open_parent parent) }
{
    let Parent {
        name,
        attrs,
        mut children,
    } = parent;
    children.push_reserved(Node::Child(element));
    OpenElement {
        name,
        attrs,
        children,
    }
}

impl Builder {
    /// The words, which are then none.
    fn take_words(&mut self) -> String
        ensures words { string_bytes result ≡ string_bytes self.old.words }
        ensures kept { building self.new ≡ record (building self.old) { words = [] } }
        ensures parts { (self.new.innermost ≡ self.old.innermost) × (self.new.others ≡ self.old.others) × (self.new.layers ≡ self.old.layers) }
    {
        mem::replace(&mut self.words, String::new(self.alloc))
    }

    /// Adds a character of words, in an open element.
    fn add_word(&mut self, token: Token)
        requires room { string_len self.old.words + 4 ≤ string_capacity self.old.words }
        requires word { are_words (token ∷ []) ≡ true }
        requires inside { is_some self.old.innermost ≡ true }
        ensures built { building self.new ≡ build (building self.old) token }
        ensures parts { self.new.innermost ≡ self.old.innermost }
        ensures len { string_len self.new.words ≤ string_len self.old.words + 4 }
        ensures capacity { string_capacity self.old.words ≤ string_capacity self.new.words }
    {
        if let Token::Word(c) = token {
            match self.words.push(c) {
                Ok(()) => {}
                Err(_) => unreachable!(),
            }
        }
    }

    /// Adds the characters of words; between top elements they are passed over.
    fn add_words(&mut self, told: &[Token])
        requires room { string_len self.old.words + 4 * length told.now ≤ string_capacity self.old.words }
        requires words { are_words told.now ≡ true }
        ensures { building self.new ≡ build_all (building self.old) told.now }
    {
        if self.innermost.is_none() {
            return;
        }
        for token in told {
            self.add_word(*token);
        }
    }

    /// Closes the innermost element, which then is a child of the one round it, or a top element.
    fn close(&mut self)
        requires { HasChildRoom 1 self.old.innermost }
        ensures { building self.new ≡ closed_in (building self.old).opened (building self.old) }
    {
        let words = self.take_words();
        let Some(innermost) = self.innermost.take() else {
            self.item = Some(Item::CloseTag);
            return;
        };
        let element = closed_element(innermost, words);
        self.layers.pop();
        match self.others.pop() {
            Some(parent) => self.innermost = Some(with_closed(parent, element)),
            None => self.item = Some(Item::Top(element)),
        }
    }

    /// The element of the tag that was begun last, of which then nothing is left.
    fn take_element(&mut self, resolved: Resolved) -> Element
        requires { IsOfTag self.old resolved }
        ensures element { result ≡ resolved_in resolved (tag_of self.old) }
        ensures emptied { building self.new ≡ record (building self.old) { tag = nothing_gathered } }
        ensures parts { (self.new.innermost ≡ self.old.innermost) × (self.new.others ≡ self.old.others) × (self.new.layers ≡ self.old.layers) }
    {
        let attributes = mem::replace(&mut self.attributes, Vec::new(self.alloc));
        let element = element(self.alloc, resolved, &mut self.name, attributes);
        self.empty_tag();
        element
    }

    /// Nothing is left of the tag that was begun last.
    fn empty_tag(&mut self)
        ensures emptied { building self.new ≡ record (building self.old) { tag = nothing_gathered } }
        ensures parts { (self.new.innermost ≡ self.old.innermost) × (self.new.others ≡ self.old.others) × (self.new.layers ≡ self.old.layers) }
    {
        if self.name.len() > FEW {
            self.name = Vec::new(self.alloc);
        }
        self.clear_tag();
    }

    /// The same, but all room for a name and a value stays.
    fn clear_tag(&mut self)
        ensures emptied { building self.new ≡ record (building self.old) { tag = nothing_gathered } }
        ensures parts { (self.new.innermost ≡ self.old.innermost) × (self.new.others ≡ self.old.others) × (self.new.layers ≡ self.old.layers) }
        ensures room { (vec_len self.new.name ≡ 0) × (vec_capacity self.new.name ≡ vec_capacity self.old.name) }
    {
        self.name.clear();
        self.attributes = Vec::new(self.alloc);
        self.attribute = Vec::new(self.alloc);
        self.value.clear();
    }

    /// Begins an element in the innermost one.
    fn begin(&mut self, element: Element, own: Several<Binding>)
        requires layers { vec_len self.old.layers < vec_capacity self.old.layers }
        requires others { vec_len self.old.others < vec_capacity self.old.others }
        requires children { HasChildRoom 2 self.old.innermost }
        ensures { building self.new ≡ begun_in element own (building self.old) }
    {
        self.layers.push_reserved(own);
        let words = self.take_words();
        let Element {
            name,
            attrs,
            children,
        } = element;
        let open = OpenElement {
            name,
            attrs,
            children: children.into_vec(),
        };
        if let Some(outside) = self.innermost.replace(open) {
            let OpenElement {
                name,
                attrs,
                mut children,
            } = outside;
            push_words(&mut children, words);
            self.others.push_reserved(Parent {
                name,
                attrs,
                children,
            });
        }
    }

    /// Adds an element without content to the innermost one, or ends a top element.
    fn add_hollow(&mut self, element: Element)
        requires children { HasChildRoom 2 self.old.innermost }
        ensures { building self.new ≡ ended_in element (building self.old).words (building self.old).opened (building self.old) }
    {
        let words = self.take_words();
        match self.innermost.take() {
            Some(mut innermost) => {
                push_words(&mut innermost.children, words);
                innermost.children.push_reserved(Node::Child(element));
                self.innermost = Some(innermost);
            }
            None => self.item = Some(Item::Top(element)),
        }
    }

    /// Begins a tag of which the name begins with this byte.
    pub(crate) fn open_tag(&mut self, byte: u8)
        requires { 0 < vec_capacity self.old.name }
        ensures { building self.new ≡ record (building self.old) { tag = record { name = byte ∷ []; attributes = []; attribute = []; value = [] } } }
    {
        self.clear_tag();
        self.name.push_reserved(byte);
    }

    /// Begins an attribute of this name.
    pub(crate) fn open_attribute(&mut self, name: Vec<u8>)
        ensures { building self.new ≡ record (building self.old) { tag = record (tag_of self.old) { attribute = name.items; value = [] } } }
    {
        self.attribute = name;
        self.value.clear();
    }

    /// Ends the attribute that is being read.
    pub(crate) fn end_value(&mut self)
        requires { vec_len self.old.attributes < vec_capacity self.old.attributes }
        ensures { building self.new ≡ record (building self.old) { tag = gather (tag_of self.old) token.ValueEnds } }
    {
        let name = mem::replace(&mut self.attribute, Vec::new(self.alloc));
        let value = take_value(self.alloc, &mut self.value);
        self.attributes.push_reserved(Written {
            name: Several::of(name),
            value,
        });
    }

    /// Ends the start tag of the stream, which then is the header that waits.
    fn end_header(&mut self, heading: Box<Heading>)
        requires room { vec_len self.old.layers < vec_capacity self.old.layers }
        requires tag { IsOfTag self.old heading.value.resolved }
        ensures { building self.new ≡ applied (ready.Header heading) [] (building self.old) }
    {
        let Heading {
            resolved,
            own,
            default_space,
        } = Box::into_inner(heading);
        let root = self.take_element(resolved);
        self.layers.push_reserved(own);
        self.item = Some(Item::Header {
            root,
            default_space,
        });
    }

    /// Ends another start tag, whose element is then open.
    pub(crate) fn end_start(&mut self, beginning: Beginning)
        requires { IsOfStart self.old beginning }
        ensures { building self.new ≡ begun_by beginning (building self.old) }
    {
        let Beginning { resolved, own } = beginning;
        let element = self.take_element(resolved);
        self.begin(element, own);
    }

    /// Ends an empty-element tag.
    pub(crate) fn end_hollow(&mut self, resolved: Resolved)
        requires children { HasChildRoom 2 self.old.innermost }
        requires tag { IsOfTag self.old resolved }
        ensures { building self.new ≡ hollow_by resolved (building self.old) }
    {
        let element = self.take_element(resolved);
        self.add_hollow(element);
    }

    /// Ends an end tag.
    pub(crate) fn end_element(&mut self)
        requires { HasChildRoom 1 self.old.innermost }
        ensures { building self.new ≡ applied ready.Closes [] (building self.old) }
    {
        self.empty_tag();
        self.close();
    }

    /// Does what was prepared. Takes no memory. Each case is a function of its own: what a function has of locals is made at
    /// each call.
    pub(crate) fn apply(&mut self, ready: Ready, told: &[Token])
        requires { IsReady self.old told.now ready }
        ensures { building self.new ≡ applied ready told.now (building self.old) }
    {
        match ready {
            Ready::Nothing => {}
            Ready::Tag(byte) => self.open_tag(byte),
            Ready::NameByte(byte) => self.name.push_reserved(byte),
            Ready::Attribute(name) => self.open_attribute(name),
            Ready::AttributeByte(byte) => self.attribute.push_reserved(byte),
            Ready::ValueChar(c) => self.add_value(c),
            Ready::ValueEnd => self.end_value(),
            Ready::Words => self.add_words(told),
            Ready::Header(heading) => self.end_header(heading),
            Ready::Begins(beginning) => self.end_start(Box::into_inner(beginning)),
            Ready::Hollow(resolved) => self.end_hollow(Box::into_inner(resolved)),
            Ready::Closes => self.end_element(),
        }
    }

    /// Adds a character to the value that is being read.
    fn add_value(&mut self, c: char)
        requires { string_len self.old.value + 4 ≤ string_capacity self.old.value }
        ensures { building self.new ≡ record (building self.old) { tag = gather (tag_of self.old) (token.Value c) } }
    {
        match self.value.push(c) {
            Ok(()) => {}
            Err(_) => unreachable!(),
        }
    }
}
