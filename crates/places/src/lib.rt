// Places of an accepted file: the element that starts at a place, where its extent ends, its depth and its direct header.
// Every call judges once and then goes straight to its place. Definitions: specs/Places, specs/Descent.
//
// The extent of the element that starts at a place of an accepted file: where it starts and ends, and its bytes.
// Definitions: specs/Extents.

#![tactic(auto)]

ghost use Rattle.std.specs.Prelude.{◌≡◌, ◌/◌, ◌<◌, length};
ghost use Rattle.words.specs.Words.{words};
ghost use Rattle.places.specs.declared.Above.TheVariants.{Top};
ghost use Rattle.places.specs.Places.{placed_at, spotted_at};
ghost use Rattle.places.specs.Descent.{IsLocated, locate_of};
ghost use Rattle.places.specs.Extents.{extent_answer, extent_bytes};

use files::Reached;
use refusals::Refusal;

// The direct header of an element.
#[derive(Clone, Copy)]
pub enum Above {
    Top,
    Under { place: usize },
}

// The element that starts at a place: where its extent ends, its depth and its direct header.
#[derive(Clone, Copy)]
pub struct Spotted {
    pub end: usize,
    pub depth: usize,
    pub above: Above,
}

// Of an accepted file: the place of its marker, and what starts at a place.
#[derive(Clone, Copy)]
pub struct Placed {
    pub marker: usize,
    pub found: Result<Spotted, Refusal>,
}

// The element that starts at a place of a judged file, from the element at `top` on: over the elements whose extents end
// by the place, and into the header whose extent holds it.
fn descend(file: &[u8], top: usize, place: usize) -> Result<Spotted, Refusal>
    requires { place < length file.now / 2 }
    ensures { IsLocated (words file.now) top 0 Top place result }
{
    let mut here = top;
    let mut depth = 0;
    let mut above = Above::Top;
    while here < place {
        let end = here + headers::extent_words(file, here);
        if end <= place {
            here = end;
        } else {
            if !kinds::is_header(headers::type_at(file, here)) {
                return Err(Refusal {
                    number: 13,
                    place: 0,
                });
            }
            above = Above::Under { place: here };
            depth += 1;
            here += headers::size_at(file, here);
        }
    }
    if here == place {
        let end = here + headers::extent_words(file, here);
        return Ok(Spotted { end, depth, above });
    }
    Err(Refusal {
        number: 13,
        place: 0,
    })
}

// The element that starts at a place before the marker of a judged file.
pub fn locate(file: &[u8], place: usize, marker: usize) -> Result<Spotted, Refusal>
    ensures { result ≡ locate_of (words file.now) place marker }
{
    if place < marker {
        if place < file.len() / 2 {
            return descend(file, 0, place);
        }
    }
    Err(Refusal {
        number: 13,
        place: 0,
    })
}

// What a file is judged to be, 1 and its own refusals first, and the element that starts at a place. The elements at the
// top are judged up to the first that ends after the place, where the descent begins, and then the others.
pub fn placed_at(file: &[u8], dim: usize, place: usize) -> Result<Placed, Refusal>
    ensures { result ≡ placed_at dim file.now place }
{
    if !limits::call_ok(file, dim) {
        return Err(Refusal {
            number: 1,
            place: 0,
        });
    }
    let bound = file.len() / 2;
    match files::reach(file, 0, dim, place, false)? {
        Reached::End { place: marker, .. } => {
            let found = Err(Refusal {
                number: 13,
                place: 0,
            });
            Ok(Placed { marker, found })
        }
        Reached::Element {
            start: top,
            end,
            ..
        } => {
            match files::reach(file, end, dim, bound, false)? {
                Reached::End { place: marker, .. } => {
                    let found = descend(file, top, place);
                    Ok(Placed { marker, found })
                }
                // no element ends after the bound
                Reached::Element { end: other, .. } => Err(Refusal {
                    number: 3,
                    place: other,
                }),
            }
        }
    }
}

// The element that starts at a place of a file: 1, the file's own refusals, then 13.
pub fn spotted_at(file: &[u8], dim: usize, place: usize) -> Result<Spotted, Refusal>
    ensures { result ≡ spotted_at dim file.now place }
{
    placed_at(file, dim, place)?.found
}

// An extent, from its first word to the word after its last.
#[derive(Clone, Copy)]
pub struct Extent {
    pub start: usize,
    pub end: usize,
}

// Where the extent of the element at a place starts and ends.
pub fn extent_answer(file: &[u8], dim: usize, place: usize) -> Result<Extent, Refusal>
    ensures { result ≡ extent_answer dim file.now place }
{
    let spot = spotted_at(file, dim, place)?;
    Ok(Extent {
        start: place,
        end: spot.end,
    })
}

// The extent of the element at a place, as that part of the file; empty where refused.
pub fn extent_at(file: &[u8], dim: usize, place: usize) -> &[u8]
    ensures { result.now ≡ extent_bytes dim file.now place }
{
    match spotted_at(file, dim, place) {
        Ok(spot) => {
            let a = 2 * place;
            let e = 2 * spot.end;
            &file[a..e]
        }
        Err(_) => &file[..0],
    }
}
