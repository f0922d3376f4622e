// The C interface of the writer, as in include/dgn.h. No logic: what the function is handed and leaves is in
// specs/Writing.

#![tactic(auto)]

ghost use Rattle.dgn_writer.specs.Writing.{Wrote};

#[unsafe(no_mangle)]
pub extern "C" fn dgn_write(
    fields: &[i64],
    points: &[i32],
    tail: &[u8],
    dim: usize,
    buffer: &mut [u8],
    out: &mut [usize],
) -> usize
    ensures { Wrote dim fields.now points.now tail.now buffer.old out.old result buffer.new out.new }
{
    if out.len() < 1 {
        return 1;
    }
    match write_answers::fields_in(fields) {
        Some(fields) => {
            write_answers::put_written(out, writer::write(fields, points, tail, dim, buffer))
        }
        None => 1,
    }
}
