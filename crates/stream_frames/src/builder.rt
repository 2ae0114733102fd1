//! What the tokens of a byte will do to the elements that are being made: its memory is taken, and else nothing changes.

ghost use Rattle.std.specs.Prelude.{◌≡◌, ◌<◌, ◌≤◌, ◌+◌, ◌*◌, ◌==◌, [], ◌∷◌, ◌++◌, not, length, true, false, None, Some, IfOk, IfErr, OnOk, vec_len, vec_capacity};
ghost use Rattle.stream_frames.specs.Spaces.{bound_space};
ghost use Rattle.stream_frames.specs.Works.{idle_on};
ghost use Rattle.stream_grammar.specs.grammar.Namespaces.{own, space_of};
ghost use Rattle.stream_grammar.specs.grammar.Resolving.{or_none};
ghost use Rattle.stream_frames.specs.TagFaults.{IsTagFault, IsStartFault, IsFaultOf, AreFaultOf};
ghost use Rattle.stream_grammar.specs.grammar.Elements.{inside_of, element_with, fault_of_tag};
ghost use Rattle.stream_lex.specs.declared.Token.TheVariants as token;
ghost use Rattle.stream_grammar.specs.machine.Building.{Building, tag_judged, told_judged, build, build_all};
ghost use Rattle.stream_grammar.specs.machine.Telling.{is_few};
ghost use Rattle.stream_grammar.specs.machine.Texts.{IsTextTag, AreNamed};
ghost use Rattle.stream_frames.specs.Builds.{tag_of, building, HasChildRoom, IsOfTag, IsOfStart, IsReady, resolved_in, begun_by, hollow_by, applied};

use crate::built::{Beginning, Builder, Heading, Ready};
use crate::namespaces::{
    Space, bound_before, last_bound, last_in_layers, own_bindings, share_declared,
};
use crate::tags::{Resolved, TagFault, resolve, space_text};
use stanza_tree::{NoMemory, Several, Text};
use std::alloc::Global;
use stream_grammar::Binding;
use stream_lex::Token;

/// The most bytes of a character (RFC 3629, 3).
const MOST_OF_CHARACTER: usize = 4;

/// The most bytes that a byte can bring: up to four characters that were held back.
const MOST_OF_BYTE: usize = 16;

/// How many bytes a name begins with room for: those of most names.
const USUAL_NAME: usize = 16;

/// A vector of one byte, with room for the rest of a short name.
pub(crate) fn one_byte(alloc: Global, byte: u8) -> Result<Vec<u8>, NoMemory>
    ensures { IfOk result (λ v. v.items ≡ byte ∷ []) }
{
    let mut bytes = Vec::with_capacity(alloc, USUAL_NAME)?;
    bytes.push(byte)?;
    Ok(bytes)
}

fn boxed<T: Drop>(alloc: Global, value: T) -> Result<Box<T>, NoMemory>
    ensures { IfOk result (λ b. b.value ≡ value) }
{
    Ok(Box::new(alloc, value)?)
}

/// The default namespace inside a tag that declares these bindings.
#[tactic(auto, using(crate::proofs::TextLemmas::layer_more, crate::proofs::LookupLemmas::last_known))]
fn default_bound<'a>(layers: &'a [Several<Binding>], own: &'a [Binding]) -> Option<Space<'a>>
    ensures { bound_space result ≡ space_of (layers.now ++ own.now ∷ []) [] }
{
    match last_bound(own, b"") {
        Some(space) => Some(Space::Bound(space)),
        None => last_in_layers(bound_before(b""), layers, b""),
    }
}

/// The same as a text.
fn default_space(
    alloc: Global,
    layers: &[Several<Binding>],
    own: &[Binding],
) -> Result<Text, NoMemory>
    ensures { IfOk result (λ t. t ≡ or_none (space_of (layers.now ++ own.now ∷ []) [])) }
{
    space_text(alloc, default_bound(layers, own))
}

impl Builder {
    /// Nothing but the bindings of what is open. Takes no memory.
    pub(crate) fn on(alloc: Global, layers: Vec<Several<Binding>>) -> Builder
        ensures { building result ≡ idle_on layers.items }
    {
        Builder {
            alloc,
            name: Vec::new(alloc),
            attributes: Vec::new(alloc),
            attribute: Vec::new(alloc),
            value: String::new(alloc),
            layers,
            innermost: None,
            others: Vec::new(alloc),
            words: String::new(alloc),
            item: None,
        }
    }

    /// Whether there is nothing but bindings.
    pub(crate) fn is_idle(&self) -> bool
        ensures { result ≡ true → building self.now ≡ idle_on self.now.layers.items }
    {
        self.innermost.is_none()
            && self.name.is_empty()
            && self.item.is_none()
            && self.attributes.is_empty()
            && self.attribute.is_empty()
            && self.value.is_empty()
            && self.words.is_empty()
    }

    /// The bindings of what is open.
    pub(crate) fn into_layers(self) -> Vec<Several<Binding>>
        ensures { result ≡ self.layers }
    {
        let Builder {
            alloc: _,
            name: _,
            attributes: _,
            attribute: _,
            value: _,
            layers,
            innermost: _,
            others: _,
            words: _,
            item: _,
        } = self;
        layers
    }

    /// What the tag that was begun last needs to become an element, and the bindings that it declares. Leaves room for these.
    fn resolved_tag(&mut self) -> Result<(Resolved, Several<Binding>), TagFault>
        requires { IsTextTag (tag_of self.old) }
        ensures kept { building self.new ≡ building self.old }
        ensures parts { (self.new.innermost ≡ self.old.innermost) × (self.new.others ≡ self.old.others) }
        ensures element { IfOk result (λ p. resolved_in p.0 (tag_of self.old) ≡ element_with (inside_of (building self.old).layers (tag_of self.old))
            (tag_of self.old) []) }
        ensures fits { IfOk result (λ p. IsOfTag self.new p.0) }
        ensures own { IfOk result (λ p. p.1 ≡ own self.old.attributes.items) }
        ensures room { OnOk result (vec_len self.new.layers < vec_capacity self.new.layers) }
        ensures ok { OnOk result (fault_of_tag (building self.old).layers (tag_of self.old) ≡ None) }
        ensures fault { IfErr result (IsTagFault (inside_of (building self.old).layers (tag_of self.old)) self.old.name.items self.old.attributes.items) }
    {
        share_declared(self.alloc, &mut self.attributes)?;
        let own = own_bindings(self.alloc, self.attributes.as_slice())?;
        self.layers.reserve(1)?;
        self.layers.push_reserved(own);
        let made = resolve(
            self.alloc,
            self.layers.as_slice(),
            self.name.as_slice(),
            self.attributes.as_slice(),
        );
        match (made, self.layers.pop()) {
            (Ok(resolved), Some(own)) => Ok((resolved, own)),
            (Err(fault), _) => Err(fault),
            (Ok(_), None) => unreachable!(),
        }
    }

    /// What the start tag of an element in the stream's will do.
    pub(crate) fn beginning(&mut self) -> Result<Beginning, TagFault>
        requires tag { IsTextTag (tag_of self.old) }
        requires header { not (length (building self.old).layers == 0) ≡ true }
        ensures kept { building self.new ≡ building self.old }
        ensures begun { IfOk result (λ h. (b : Building) → b ≡ building self.old → begun_by h b ≡ build b (token.TagEnds false)) }
        ensures ready { IfOk result (IsOfStart self.new) }
        ensures ok { OnOk result (fault_of_tag (building self.old).layers (tag_of self.old) ≡ None) }
        ensures fault { IfErr result (IsStartFault (building self.old)) }
    {
        let (resolved, own) = self.resolved_tag()?;
        if let Some(innermost) = &mut self.innermost {
            innermost.children.reserve(2)?;
        }
        self.others.reserve(1)?;
        Ok(Beginning { resolved, own })
    }

    /// What the start tag of the stream will do.
    fn ready_for_header(&mut self) -> Result<Ready, TagFault>
        requires tag { IsTextTag (tag_of self.old) }
        requires first { (length (building self.old).layers == 0) ≡ true }
        ensures kept { building self.new ≡ building self.old }
        ensures applied { IfOk result (λ r. (b : Building) → b ≡ building self.old → applied r (token.TagEnds false ∷ []) b ≡ build b (token.TagEnds false)) }
        ensures ready { IfOk result (IsReady self.new (token.TagEnds false ∷ [])) }
        ensures ok { OnOk result (fault_of_tag (building self.old).layers (tag_of self.old) ≡ None) }
        ensures fault { IfErr result (IsStartFault (building self.old)) }
    {
        let (resolved, own) = self.resolved_tag()?;
        let default_space = default_space(self.alloc, self.layers.as_slice(), own.slice())?;
        let heading = Heading {
            resolved,
            own,
            default_space,
        };
        Ok(Ready::Header(boxed(self.alloc, heading)?))
    }

    /// What the start tag that was begun last will do.
    fn ready_for_start(&mut self) -> Result<Ready, TagFault>
        requires { IsTextTag (tag_of self.old) }
        ensures kept { building self.new ≡ building self.old }
        ensures applied { IfOk result (λ r. (b : Building) → b ≡ building self.old → applied r (token.TagEnds false ∷ []) b ≡ build b (token.TagEnds false)) }
        ensures ready { IfOk result (IsReady self.new (token.TagEnds false ∷ [])) }
        ensures ok { OnOk result (fault_of_tag (building self.old).layers (tag_of self.old) ≡ None) }
        ensures fault { IfErr result (IsStartFault (building self.old)) }
    {
        if self.layers.is_empty() {
            return self.ready_for_header();
        }
        Ok(Ready::Begins(boxed(self.alloc, self.beginning()?)?))
    }

    /// What the empty-element tag that was begun last will do.
    pub(crate) fn hollow(&mut self) -> Result<Resolved, TagFault>
        requires { IsTextTag (tag_of self.old) }
        ensures kept { building self.new ≡ building self.old }
        ensures hollow { IfOk result (λ r. (b : Building) → b ≡ building self.old → hollow_by r b ≡ build b (token.TagEnds true)) }
        ensures ready { IfOk result (λ r. HasChildRoom 2 self.new.innermost × IsOfTag self.new r) }
        ensures ok { OnOk result (fault_of_tag (building self.old).layers (tag_of self.old) ≡ None) }
        ensures fault { IfErr result (IsStartFault (building self.old)) }
    {
        let (resolved, _) = self.resolved_tag()?;
        if let Some(innermost) = &mut self.innermost {
            innermost.children.reserve(2)?;
        }
        Ok(resolved)
    }

    /// The same with its block.
    fn ready_for_hollow(&mut self) -> Result<Ready, TagFault>
        requires { IsTextTag (tag_of self.old) }
        ensures kept { building self.new ≡ building self.old }
        ensures applied { IfOk result (λ r. (b : Building) → b ≡ building self.old → applied r (token.TagEnds true ∷ []) b ≡ build b (token.TagEnds true)) }
        ensures ready { IfOk result (IsReady self.new (token.TagEnds true ∷ [])) }
        ensures ok { OnOk result (fault_of_tag (building self.old).layers (tag_of self.old) ≡ None) }
        ensures fault { IfErr result (IsStartFault (building self.old)) }
    {
        let resolved = self.hollow()?;
        Ok(Ready::Hollow(boxed(self.alloc, resolved)?))
    }

    /// Makes room for the name of a tag. Answers whether there was memory.
    pub(crate) fn reserve_name(&mut self) -> bool
        ensures kept { building self.new ≡ building self.old }
        ensures room { result ≡ true → 0 < vec_capacity self.new.name }
    {
        self.name.reserve(USUAL_NAME).is_ok()
    }

    /// Makes room for what an end tag adds to the element that it ends. Answers whether there was memory.
    pub(crate) fn reserve_words(&mut self) -> bool
        ensures kept { building self.new ≡ building self.old }
        ensures room { result ≡ true → HasChildRoom 1 self.new.innermost }
    {
        match &mut self.innermost {
            Some(innermost) => innermost.children.reserve(1).is_ok(),
            None => true,
        }
    }

    /// What a token will do.
    pub(crate) fn ready_for(&mut self, token: Token) -> Result<Ready, TagFault>
        requires { AreNamed (tag_of self.old) (token ∷ []) }
        ensures kept { building self.new ≡ building self.old }
        ensures applied { IfOk result (λ r. applied r (token ∷ []) (building self.old) ≡ build_all (building self.old) (token ∷ [])) }
        ensures ready { IfOk result (IsReady self.new (token ∷ [])) }
        ensures ok { OnOk result (tag_judged (building self.old) token ≡ None) }
        ensures fault { IfErr result (IsFaultOf (building self.old) token) }
    {
        match token {
            Token::TagOpens(byte) => {
                self.name.reserve(USUAL_NAME)?;
                Ok(Ready::Tag(byte))
            }
            Token::NameByte(byte) => {
                self.name.reserve(1)?;
                Ok(Ready::NameByte(byte))
            }
            Token::AttrOpens(byte) => Ok(Ready::Attribute(one_byte(self.alloc, byte)?)),
            Token::AttrByte(byte) => {
                self.attribute.reserve(1)?;
                Ok(Ready::AttributeByte(byte))
            }
            Token::Value(c) => {
                self.value.reserve(MOST_OF_CHARACTER)?;
                Ok(Ready::ValueChar(c))
            }
            Token::ValueEnds => {
                self.attributes.reserve(1)?;
                Ok(Ready::ValueEnd)
            }
            Token::Word(_) => {
                self.words.reserve(MOST_OF_CHARACTER)?;
                Ok(Ready::Words)
            }
            Token::TagEnds { empty: false } => self.ready_for_start(),
            Token::TagEnds { empty: true } => self.ready_for_hollow(),
            Token::CloseEnds => {
                if let Some(innermost) = &mut self.innermost {
                    innermost.children.reserve(1)?;
                }
                Ok(Ready::Closes)
            }
            Token::CloseOpens(_) | Token::ValueOpens | Token::Declaration => Ok(Ready::Nothing),
        }
    }

    /// What the tokens of a byte will do. Takes the memory for it, and changes nothing else.
    pub(crate) fn prepare(&mut self, told: &[Token]) -> Result<Ready, TagFault>
        requires few { is_few told.now ≡ true }
        requires short { length told.now ≤ 4 }
        requires named { AreNamed (tag_of self.old) told.now }
        ensures kept { building self.new ≡ building self.old }
        ensures applied { IfOk result (λ r. applied r told.now (building self.old) ≡ build_all (building self.old) told.now) }
        ensures ready { IfOk result (IsReady self.new told.now) }
        ensures ok { OnOk result (told_judged (building self.old) told.now ≡ None) }
        ensures fault { IfErr result (AreFaultOf (building self.old) told.now) }
    {
        match told {
            [] => Ok(Ready::Nothing),
            [token] => self.ready_for(*token),
            _ => {
                self.words.reserve(MOST_OF_BYTE)?;
                Ok(Ready::Words)
            }
        }
    }
}
