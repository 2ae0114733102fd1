//! What a flow says of itself: its headers, its errors and its last text.

ghost use Rattle.std.specs.Prelude.{◌≡◌, ◌++◌, IfOk, OnErr, OnOk, Some};
ghost use Rattle.conn_flow.specs.Duties.{features_of};
ghost use Rattle.conn_flow.specs.Flows.{IsThere, error_said, header_at, last_text, unsaid};

use crate::talk::Talk;
use conn_asks::{
    Ended, Stage, StreamError, push_close_tag, push_error, push_features, push_header,
    push_login_features,
};
use stanza_tree::{NoMemory, Several};
use std::alloc::Global;

impl Talk {
    /// The header of the present stream (RFC 6120, 4.7). The stream after a login is another, with another id.
    fn push_own_header(&self, alloc: Global, out: &mut Vec<u8>) -> Result<(), NoMemory>
        ensures { OnOk result (out.new.items ≡ out.old.items ++ header_at self.now) }
    {
        let mut id = Vec::from_slice(alloc, self.id.slice())?;
        if self.again {
            id.extend_from_slice(b"-2")?;
        }
        push_header(self.domain.bytes(), id.as_slice(), out)
    }

    fn push_own_features(&self, out: &mut Vec<u8>) -> Result<(), NoMemory>
        ensures { OnOk result (out.new.items ≡ out.old.items ++ features_of self.now.stage) }
    {
        match &self.stage {
            Stage::Login(_) => push_login_features(out),
            Stage::Logged(_) => push_features(out),
            Stage::Bound(_) => push_features(out),
        }
    }

    /// The header, and the features that go with it.
    pub(crate) fn greeting(&self, alloc: Global) -> Result<Vec<u8>, NoMemory>
        ensures { IfOk result (λ text. text.items ≡ header_at self.now ++ features_of self.now.stage) }
    {
        let mut text = Vec::new(alloc);
        self.push_own_header(alloc, &mut text)?;
        self.push_own_features(&mut text)?;
        Ok(text)
    }

    fn push_unsaid(&self, alloc: Global, out: &mut Vec<u8>) -> Result<(), NoMemory>
        ensures { OnOk result (out.new.items ≡ out.old.items ++ unsaid self.now) }
    {
        if self.headed {
            return Ok(());
        }
        self.push_own_header(alloc, out)
    }

    /// The text of an error, with the header before it where that wasn't said (RFC 6120, 4.9.1).
    fn error_text(&self, alloc: Global, error: StreamError) -> Result<Vec<u8>, NoMemory>
        ensures { IfOk result (λ text. error_said self.now (Some error) ≡ Some text.items) }
    {
        let mut text = Vec::new(alloc);
        self.push_unsaid(alloc, &mut text)?;
        push_error(alloc, error, &mut text)?;
        push_close_tag(&mut text)?;
        Ok(text)
    }

    fn error_said(
        &self,
        alloc: Global,
        error: Option<StreamError>,
    ) -> Result<Option<Several<u8>>, NoMemory>
        ensures text { IfOk result (λ text. text ≡ error_said self.now error) }
        ensures err { OnErr result (IsThere (error_said self.now error)) }
    {
        match error {
            Some(error) => Ok(Some(Several::of(self.error_text(alloc, error)?))),
            None => Ok(None),
        }
    }

    /// The last text, where there is one.
    pub(crate) fn last_text(
        &self,
        alloc: Global,
        ended: Ended,
    ) -> Result<Option<Several<u8>>, NoMemory>
        ensures text { IfOk result (λ text. text ≡ last_text self.now ended) }
        ensures err { OnErr result (IsThere (last_text self.now ended)) }
    {
        match ended {
            Ended::Closed => {
                let mut text = Vec::new(alloc);
                push_close_tag(&mut text)?;
                Ok(Some(Several::of(text)))
            }
            _ => self.error_said(alloc, ended.error()),
        }
    }
}
