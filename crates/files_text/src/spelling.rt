//! Numbers and tags in rows. Where many rows have one tag, its text is kept.
ghost use Rattle.std.specs.Prelude.{◌≡◌, OnOk, IsTrue, Some};
ghost use Rattle.std.specs.Io.KnownBytes.{Appends};
ghost use Rattle.files_text.specs.RowText.{spaced_tag};

use crate::put::{CannotWrite, put};
use crate::tags::write_tag;
use arrayvec::ArrayVec;
use itoa::Buffer;
use std::io::Write;
use std::marker::Model;
use tag::Tag;

/// More than a tag takes.
const ROOM: usize = 64;

/// Room for the digits of numbers, and the text of a tag. Contracts see which tag that is.
#[derive(Drop)]
pub struct Spelling {
    pub digits: Buffer,
    /// The tag that was written last.
    last: Option<Tag>,
    tag: Option<Tag>,
    text: ArrayVec<u8, ROOM>,
}

impl Model for Spelling {
    ghost use Rattle.std.specs.Prelude.{Option, IfSome, ◌≡◌};
    ghost use Rattle.tag.specs.LogicalTime.{LogicalTime};
    ghost use Rattle.files_text.specs.RowText.{spaced_tag};

    ghost Value = { Option LogicalTime };

    ghost view = { λ s. s.tag };

    ghost invariant = { λ s. IfSome s.tag (λ tag. s.text.items ≡ spaced_tag tag) };
}

impl Spelling {
    /// Of no tag yet.
    pub fn new() -> Spelling {
        Spelling {
            digits: Buffer::new(),
            last: None,
            tag: None,
            text: ArrayVec::new(),
        }
    }

    /// Writes a tag between spaces.
    pub fn write_tag<W: Write>(&mut self, out: &mut W, tag: Tag) -> Result<(), CannotWrite>
        ensures { OnOk result (Appends (W.contents out.old) (W.contents out.new) (spaced_tag tag)) }
    {
        if is_tag(self.tag, tag) {
            return put(out, self.text.as_slice());
        }
        // A tag that only one row has is written once.
        if is_tag(self.last, tag) {
            self.spell(tag);
        }
        self.last = Some(tag);
        write_tag(out, &mut self.digits, tag)
    }

    // Keeps the text of this tag, where there is room for it.
    fn spell(&mut self, tag: Tag) {
        self.tag = None;
        self.text.clear();
        if write_tag(&mut self.text, &mut self.digits, tag).is_ok() {
            self.tag = Some(tag);
        }
    }
}

// Whether this is the tag, if there is one.
fn is_tag(tag: Option<Tag>, wanted: Tag) -> bool
    ensures { IsTrue result → tag ≡ Some wanted }
{
    match tag {
        Some(tag) => tag == wanted,
        None => false,
    }
}
