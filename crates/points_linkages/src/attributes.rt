// The linkages of an element by number. Definitions: specs/Linkages.
ghost use Rattle.std.specs.Prelude.{◌≡◌, ◌/◌, ◌<◌, length};
ghost use Rattle.words.specs.Words.{words};
ghost use Rattle.elements.specs.Attributes.{has_attributes};
ghost use Rattle.points_linkages.specs.Linkages.{linkage_of};

use linkages::Linkage;
use places::spotted_at;
use refusals::Refusal;

// Whether the element at a place has an attribute part.
fn has_attributes(file: &[u8], at: usize) -> bool
    requires { at < length file.now / 2 }
    ensures { result ≡ has_attributes (words file.now) at }
{
    if kinds::is_linked(headers::type_at(file, at)) {
        return words::word(file, at + 16) / 2048 % 2 == 1;
    }
    false
}

// Linkage k, from 0, of the element at a place.
pub fn linkage_at(file: &[u8], dim: usize, place: usize, k: usize) -> Result<Linkage, Refusal>
    ensures { result ≡ linkage_of dim file.now place k }
{
    let none = Refusal {
        number: 13,
        place: 0,
    };
    spotted_at(file, dim, place)?;
    if !has_attributes(file, place) {
        return Err(none);
    }
    let part = 16 + words::word(file, place + 15);
    let end = place + headers::size_at(file, place);
    linkages::linkage_in(file, place + part, end, k).ok_or(none)
}
