// A reader that holds a stored value's octets and a place in them. What it sees there is read by functions on the slice and the number; each function
// over the reader takes it apart and calls one of these. Reads past the end are total, so nothing is asked of a caller.
#![tactic(auto)]

ghost use Rattle.std.specs.Prelude.{◌≡◌};
ghost use Rattle.reader.specs.There.{header_there};
ghost use Rattle.reader.specs.Inner.Reads.{reader_at, size_there, value_there};

// A place in a stored value's octets.
#[derive(Clone, Copy)]
pub struct Reader<'a> {
    pub octets: &'a [u8],
    pub place: usize,
}

// ---- what stands at a place
fn header_at(s: &[u8], place: usize) -> Option<(u8, usize, usize)>
    ensures { result ≡ header_there s.now place }
{
    der::read_header(s, place, s.len())
}

fn size_at(s: &[u8], place: usize) -> usize
    ensures { result ≡ size_there s.now place }
{
    let Some((_, start, n)) = header_at(s, place) else {
        return 0;
    };
    start + n - place
}

fn value_at(s: &[u8], place: usize) -> &[u8]
    ensures { result.now ≡ value_there s.now place }
{
    octets::part(s, place, size_at(s, place))
}

// ---- the reader
pub fn at<'a>(octets: &'a [u8], place: usize) -> Reader<'a>
    ensures { result ≡ reader_at octets.entry place }
{
    Reader { octets, place }
}

// The octets of the value at its place, header and contents; none where no header fits.
pub fn value<'a>(r: Reader<'a>) -> &'a [u8]
    ensures { result.now ≡ value_there r.entry.octets.now r.entry.place }
{
    value_at(r.octets, r.place)
}

// ---- the same on plain numbers, for callers that hold no reader
// The octets of the value at a place, header and contents; none where no header fits.
pub fn value_octets(octets: &[u8], place: usize) -> &[u8]
    ensures { result.now ≡ value_there octets.now place }
{
    value(at(octets, place))
}
