// How a text, an ellipse or an arc is turned. Reads are total: what stands beyond the slice is 0. Definitions: specs/Turns.

#![tactic(auto)]

ghost use Rattle.std.specs.Prelude.{◌≡◌};
ghost use Rattle.words.specs.Words.{words};
ghost use Rattle.turns.specs.Turns.{turn_at, turn_numbers};

// In 2D the rotation, in 3D four longs, in their stored order. All are unsigned.
#[derive(Clone, Copy)]
pub enum Turn {
    Flat {
        rotation: u32,
    },
    Solid {
        first: u32,
        second: u32,
        third: u32,
        fourth: u32,
    },
}

// The turn that stands from place i on.
pub fn turn_at(file: &[u8], dim: usize, i: usize) -> Turn
    ensures { result ≡ turn_at dim (words file.now) i }
{
    let first = words::long(file, i) as u32;
    if dim == 2 {
        return Turn::Flat { rotation: first };
    }
    if file.len() / 2 <= i {
        return Turn::Solid {
            first: 0,
            second: 0,
            third: 0,
            fourth: 0,
        };
    }
    Turn::Solid {
        first,
        second: words::long(file, i + 2) as u32,
        third: words::long(file, i + 4) as u32,
        fourth: words::long(file, i + 6) as u32,
    }
}

// A turn as four numbers.
pub fn turn_numbers(turn: Turn) -> [i64; 4]
    ensures { result ≡ turn_numbers turn }
{
    match turn {
        Turn::Flat { rotation } => [rotation as i64, 0, 0, 0],
        Turn::Solid {
            first,
            second,
            third,
            fourth,
        } => [first as i64, second as i64, third as i64, fourth as i64],
    }
}
