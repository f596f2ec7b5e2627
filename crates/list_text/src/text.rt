// A list text that was read.
ghost use Rattle.std.specs.Prelude.{IsTrue};
ghost use Rattle.list_text.specs.Reading.{reads_rows};

use crate::reader::Reader;

// A text's number of points, and the place behind its header, from which on all its rows can be read.
#[derive(Clone, Copy)]
pub struct ListText<'a> {
    pub(crate) points: usize,
    pub(crate) rows: Reader<'a>,
    ghost readable: { IsTrue (reads_rows rows.text.now rows.at) },
}
