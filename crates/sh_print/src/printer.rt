#![tactic(auto, unfolding(crate::specs::Pages::put))]

ghost use Rattle.std.specs.Prelude.{◌≡◌, [], ◌∷◌, ◌++◌, codes, decimal, false, OnOk};
ghost use Rattle.sh_lex.specs.declared.tokens.TokenKind.TheVariants as kind;
ghost use Rattle.sh_print.specs.Layout.{gap_behind};
ghost use Rattle.sh_print.specs.Layout.Piece.{apart, closing, line_end, opening, token};
ghost use Rattle.sh_print.specs.Pages.{put};
ghost use Rattle.sh_print.specs.Values.{value as value_piece};
ghost use Rattle.sh_print.specs.declared.behind.Behind.TheVariants as behind;

use crate::behind::Behind;
use crate::names::Name;
use itoa::Buffer;
use sh_base::Mem;
use std::alloc::Global;
use std::marker::Model;

/// A text as far as it is written, one piece after the other.
#[derive(Drop)]
pub(crate) struct Printer {
    text: Vec<u8>,
    indentation: Vec<u8>,
    behind: Behind,
}

impl Model for Printer {
    ghost use Rattle.sh_print.specs.Pages.{Page};

    ghost Value = { Page };

    ghost view = { λ p. record {
      text = p.text.items;
      indentation = p.indentation.items;
      behind = p.behind;
    } };
}

impl Printer {
    ghost use Rattle.sh_print.specs.Pages.{empty_page};

    /// An empty text.
    pub(crate) fn new(alloc: Global) -> Printer
        ensures { result ≡ empty_page }
    {
        Printer {
            text: Vec::new(alloc),
            indentation: Vec::new(alloc),
            behind: Behind::LineStart,
        }
    }

    /// Where its memory is from.
    pub(crate) fn allocator(&self) -> Global {
        *self.text.allocator()
    }

    /// What is written.
    pub(crate) fn into_text(self) -> Vec<u8>
        ensures { result.items ≡ self.text }
    {
        self.text
    }

    /// What stands before a token, by whether it joins what is before it, and whether it is `(`.
    fn gap(&mut self, joins: bool, opens: bool) -> Result<(), Mem>
        ensures { OnOk result (self.new ≡ record self.old {
          text =
              self.old.text
              ++ gap_behind self.old.behind self.old.indentation joins opens;
        }) }
    {
        match self.behind {
            Behind::LineStart => self.text.extend_from_slice(&self.indentation)?,
            Behind::Joint => {}
            Behind::Arrow => {
                if !joins {
                    self.text.push(b' ')?;
                }
            }
            Behind::Other => {
                if !joins && !opens {
                    self.text.push(b' ')?;
                }
            }
        }
        Ok(())
    }

    /// A token that is neither a sign nor an extent, in two parts.
    fn plain(&mut self, front: &[u8], back: &[u8]) -> Result<(), Mem>
        ensures { OnOk result (self.new ≡ record self.old {
          text =
              self.old.text
              ++ gap_behind self.old.behind self.old.indentation false false
              ++ front.now ++ back.now;
          behind = behind.Other;
        }) }
    {
        self.gap(false, false)?;
        self.text.extend_from_slice(front)?;
        self.text.extend_from_slice(back)?;
        self.behind = Behind::Other;
        Ok(())
    }

    /// A word.
    pub(crate) fn word(&mut self, text: &str) -> Result<(), Mem>
        ensures { OnOk result (self.new ≡ put self.old (token kind.Word text.now)) }
    {
        self.plain(text.as_bytes(), b"")
    }

    /// A word with a number, as `d0`.
    pub(crate) fn loop_word(&mut self, number: u32) -> Result<(), Mem>
        ensures { OnOk result (self.new ≡ put self.old
            (token kind.Word (codes "d" ++ decimal number))) }
    {
        self.plain(b"d", Buffer::new().format(number).as_bytes())
    }

    /// A name of a grid or a function, or of the module.
    pub(crate) fn symbol(&mut self, name: &[u8]) -> Result<(), Mem>
        ensures { OnOk result (self.new ≡ put self.old (token kind.At (64 ∷ name.now))) }
    {
        self.plain(b"@", name)
    }

    /// The label of a region's block.
    pub(crate) fn block(&mut self) -> Result<(), Mem>
        ensures { OnOk result (self.new ≡ put self.old (token kind.Block (codes "^bb0"))) }
    {
        self.plain(b"^bb0", b"")
    }

    /// The type of a sharding.
    pub(crate) fn sharding_type(&mut self) -> Result<(), Mem>
        ensures { OnOk result (self.new ≡ put self.old
            (token kind.Bang (codes "!shard.sharding"))) }
    {
        self.plain(b"!shard.sharding", b"")
    }

    /// A text in quotes.
    pub(crate) fn quoted(&mut self, text: &str) -> Result<(), Mem>
        ensures { OnOk result (self.new ≡ put self.old (token kind.Str text.now)) }
    {
        self.plain(text.as_bytes(), b"")
    }

    /// A number.
    pub(crate) fn number(&mut self, number: u128) -> Result<(), Mem>
        ensures { OnOk result (self.new ≡ put self.old (token kind.Number (decimal number))) }
    {
        self.plain(Buffer::new().format(number).as_bytes(), b"")
    }

    /// The name of a value.
    pub(crate) fn value(&mut self, name: Name) -> Result<(), Mem>
        ensures { OnOk result (self.new ≡ put self.old (value_piece name)) }
    {
        let mut buffer = Buffer::new();
        match name {
            Name::Argument(at) => self.plain(b"%arg", buffer.format(at).as_bytes()),
            Name::Value(at) => self.plain(b"%", buffer.format(at).as_bytes()),
            Name::BlockArgument(at) => self.plain(b"%b", buffer.format(at).as_bytes()),
            Name::BodyValue(at) => self.plain(b"%r", buffer.format(at).as_bytes()),
            Name::Undefined => self.plain(b"%_", b""),
        }
    }

    /// The extent of a dimension.
    pub(crate) fn extent(&mut self, extent: u128) -> Result<(), Mem>
        ensures { OnOk result (self.new ≡ put self.old
            (token kind.Dim (decimal extent ++ codes "x"))) }
    {
        self.plain(Buffer::new().format(extent).as_bytes(), b"x")?;
        self.behind = Behind::Joint;
        Ok(())
    }

    /// The extent of a dimension in which devices differ.
    pub(crate) fn unknown_extent(&mut self) -> Result<(), Mem>
        ensures { OnOk result (self.new ≡ put self.old (token kind.Dim (codes "?x"))) }
    {
        self.plain(b"?x", b"")?;
        self.behind = Behind::Joint;
        Ok(())
    }

    /// A sign of one byte.
    pub(crate) fn sign(&mut self, sign: u8) -> Result<(), Mem>
        ensures { OnOk result (self.new ≡ put self.old (token kind.Sign (sign ∷ []))) }
    {
        let joins = matches!(sign, b')' | b']' | b'>' | b',' | b'<');
        self.gap(joins, sign == b'(')?;
        self.text.push(sign)?;
        self.behind = if matches!(sign, b'(' | b'[' | b'<' | b'-') {
            Behind::Joint
        } else {
            Behind::Other
        };
        Ok(())
    }

    /// `->`.
    pub(crate) fn arrow(&mut self) -> Result<(), Mem>
        ensures { OnOk result (self.new ≡ put self.old (token kind.Sign (codes "->"))) }
    {
        self.plain(b"->", b"")?;
        self.behind = Behind::Arrow;
        Ok(())
    }

    /// A `<` with a blank before it.
    pub(crate) fn apart(&mut self) -> Result<(), Mem>
        ensures { OnOk result (self.new ≡ put self.old apart) }
    {
        self.text.extend_from_slice(b" <")?;
        self.behind = Behind::Joint;
        Ok(())
    }

    /// The `{` of a module, a function or a region.
    pub(crate) fn open(&mut self) -> Result<(), Mem>
        ensures { OnOk result (self.new ≡ put self.old opening) }
    {
        self.plain(b"{\n", b"")?;
        self.indentation.extend_from_slice(b"  ")?;
        self.behind = Behind::LineStart;
        Ok(())
    }

    /// Its `}`.
    pub(crate) fn close(&mut self) -> Result<(), Mem>
        ensures { OnOk result (self.new ≡ put self.old closing) }
    {
        self.indentation
            .truncate(self.indentation.len().saturating_sub(2));
        self.text.extend_from_slice(&self.indentation)?;
        self.text.push(b'}')?;
        self.behind = Behind::Other;
        Ok(())
    }

    /// The end of the line.
    pub(crate) fn end_line(&mut self) -> Result<(), Mem>
        ensures { OnOk result (self.new ≡ put self.old line_end) }
    {
        self.text.push(b'\n')?;
        self.behind = Behind::LineStart;
        Ok(())
    }
}
