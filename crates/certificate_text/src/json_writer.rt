//! Writes the JSON of a certificate. Refutations and lists of lines, which are most of it, are put
//! as text.

ghost use Rattle.std.specs.Prelude.{◌≡◌, ◌++◌, [], ◌∷◌, IfOk, OnOk};
ghost use Rattle.certificate_text.specs.Certificate.{tokens_of};
ghost use Rattle.certificate_text.specs.Puts.{Adds, PutsData};
ghost use Rattle.certificate_text.specs.Told.{lines_data, refutation_data};
ghost use Rattle.json.specs.Print.{IsPrintable, print};
ghost use Rattle.json.specs.Reads.{token_of};
ghost use Rattle.json.specs.Token.{begin_object, end_object, begin_array, end_array, key, string, number, null};
ghost use Rattle.json.specs.Written.{Writes};
ghost use Rattle.std.specs.Fmt.{decimal};

use crate::text::{push_items, push_line_items};
use json::Token;
use std::alloc::{AllocError, Global};
use std::marker::Model;
use std::mem;
use verdict_claims::{Item, Lines};

/// JSON that is being written. It places the commas and the colons, and leaves the nesting to its
/// caller.
#[derive(Drop)]
pub(crate) struct Writer {
    /// The text up to the bracket that ends the last list that was put as text.
    done: Vec<u8>,
    /// What stands after that.
    behind: json::Writer,
}

impl Model for Writer {
    ghost use Rattle.certificate_text.specs.Out.{out_view, IsOut};
    ghost use Rattle.json.specs.Written.{Written, written_code};

    ghost Value = { Written };

    ghost coded = { written_code };

    ghost view = { out_view };

    ghost invariant = { IsOut };
}

impl Writer {
    /// Nothing is written.
    pub(crate) fn new(alloc: Global) -> Writer
        ensures before { result.before ≡ [] }
        ensures tokens { result.tokens ≡ [] }
    {
        Writer {
            done: Vec::new(alloc),
            behind: json::Writer::new(Vec::new(alloc)),
        }
    }

    /// What is written.
    pub(crate) fn into_inner(self) -> Result<Vec<u8>, AllocError>
        ensures { IfOk result (λ text. text.items ≡ self.before ++ print self.tokens) }
    {
        let Writer { mut done, behind } = self;
        let rest = behind.into_inner();
        done.extend_from_slice(rest.as_slice())?;
        Ok(done)
    }

    fn token(&mut self, token: Token<'_>) -> Result<(), AllocError>
        requires { IsPrintable (token_of token) }
        ensures { Writes result self.old self.new (token_of token.entry) }
    {
        self.behind.token(token)
    }

    pub(crate) fn begin_object(&mut self) -> Result<(), AllocError>
        ensures { Writes result self.old self.new begin_object }
    {
        self.token(Token::BeginObject)
    }

    pub(crate) fn end_object(&mut self) -> Result<(), AllocError>
        ensures { Writes result self.old self.new end_object }
    {
        self.token(Token::EndObject)
    }

    pub(crate) fn begin_array(&mut self) -> Result<(), AllocError>
        ensures { Writes result self.old self.new begin_array }
    {
        self.token(Token::BeginArray)
    }

    pub(crate) fn end_array(&mut self) -> Result<(), AllocError>
        ensures { Writes result self.old self.new end_array }
    {
        self.token(Token::EndArray)
    }

    pub(crate) fn key(&mut self, name: &str) -> Result<(), AllocError>
        ensures { Writes result self.old self.new (key name.now) }
    {
        self.token(Token::Key(name))
    }

    pub(crate) fn string(&mut self, text: &str) -> Result<(), AllocError>
        ensures { Writes result self.old self.new (string text.now) }
    {
        self.token(Token::String(text))
    }

    pub(crate) fn u64(&mut self, n: u64) -> Result<(), AllocError>
        ensures { Writes result self.old self.new (number (decimal n)) }
    {
        let mut buffer = itoa::Buffer::new();
        self.token(Token::Number(buffer.format(n)))
    }

    pub(crate) fn null(&mut self) -> Result<(), AllocError>
        ensures { Writes result self.old self.new null }
    {
        self.token(Token::Null)
    }

    /// Puts the items of a refutation, as a list.
    pub(crate) fn refutation(&mut self, items: &[Item]) -> Result<(), AllocError>
        ensures { PutsData result self.old self.new (refutation_data items.now) }
    {
        let alloc = *self.done.allocator();
        let whole = mem::replace(self, Writer::new(alloc));
        *self = whole.with_refutation(items)?;
        Ok(())
    }

    /// Puts a list of lines.
    pub(crate) fn lines(&mut self, lines: &Lines) -> Result<(), AllocError>
        ensures { PutsData result self.old self.new (lines_data lines.now) }
    {
        let alloc = *self.done.allocator();
        let whole = mem::replace(self, Writer::new(alloc));
        *self = whole.with_lines(lines)?;
        Ok(())
    }

    fn with_refutation(self, items: &[Item]) -> Result<Writer, AllocError>
        ensures { IfOk result (λ writer. Adds self writer (tokens_of (refutation_data items.now))) }
    {
        let Writer { mut done, behind } = self;
        let empty = begin_list(&mut done, behind)?;
        push_items(&mut done, items)?;
        let behind = end_of_list(empty)?;
        Ok(Writer { done, behind })
    }

    fn with_lines(self, lines: &Lines) -> Result<Writer, AllocError>
        ensures { IfOk result (λ writer. Adds self writer (tokens_of (lines_data lines.now))) }
    {
        let Writer { mut done, behind } = self;
        let empty = begin_list(&mut done, behind)?;
        push_line_items(&mut done, lines)?;
        let behind = end_of_list(empty)?;
        Ok(Writer { done, behind })
    }
}

/// Begins a list whose items are to be put as text: what stands after the text is put to it, with
/// the list's bracket. Its room is kept.
fn begin_list(done: &mut Vec<u8>, mut behind: json::Writer) -> Result<Vec<u8>, AllocError>
    requires { behind.before ≡ [] }
    ensures done { OnOk result (done.new.items
        ≡ done.old.items ++ print (behind.tokens ++ begin_array ∷ [])) }
    ensures empty { IfOk result (λ room. room.items ≡ []) }
{
    behind.begin_array()?;
    let mut text = behind.into_inner();
    done.extend_from_slice(text.as_slice())?;
    text.clear();
    Ok(text)
}

/// The bracket at a list's end, after which the writing goes on.
fn end_of_list(room: Vec<u8>) -> Result<json::Writer, AllocError>
    requires { room.items ≡ [] }
    ensures before { IfOk result (λ behind. behind.before ≡ []) }
    ensures tokens { IfOk result (λ behind. behind.tokens ≡ end_array ∷ []) }
{
    let mut behind = json::Writer::new(room);
    behind.end_array()?;
    Ok(behind)
}
