// The reader: the lent bytes of a table and a place in them. It is thin, over what twelve bytes say.
ghost use Rattle.std.specs.Prelude.{◌≡◌, ◌+◌, ◌*◌, ◌≤◌, length};
ghost use Rattle.records.specs.Bytes.{record_at};

use crate::plain::Readable;

// The table's bytes and the place of the record to be read next.
#[derive(Clone, Copy)]
pub struct Reader<'a> {
    pub bytes: &'a [u8],
    pub place: usize,
}

impl<'a> Reader<'a> {
    // The reader at a place of the table's bytes.
    pub fn at(bytes: &'a [u8], place: usize) -> Reader<'a>
        ensures { (result.bytes ≡ bytes.entry) × (result.place ≡ place) }
    {
        Reader { bytes, place }
    }

    // The next record, if it can be read.
    pub fn next<R: Readable>(self) -> Option<R>
        requires { 12 * self.place + 12 ≤ length self.bytes.now }
        ensures { result ≡ R.reading (record_at self.entry.bytes.now self.entry.place) }
    {
        let rest = &self.bytes[12 * self.place..];
        let Some((record, _)) = rest.split_first_chunk::<12>() else {
            unreachable!()
        };
        R::from_bytes(record)
    }
}
