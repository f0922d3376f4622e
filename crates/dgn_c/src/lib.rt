// The library for C: every function of include/dgn.h but those of c/refusals.c, in the header's order. No logic: each calls the
// function of its name in the crates whose names begin with dgn, and states its contract again.

#![tactic(auto)]

ghost use Rattle.std.proofs.Math.Option.{some};
ghost use Rattle.std.specs.Prelude.{length};
ghost use Rattle.names.specs.Names.{packed, unpacked};
ghost use Rattle.files.specs.Judge.{judge_of};
ghost use Rattle.places.specs.Extents.{extent_answer};
ghost use Rattle.views.specs.Views.{view_of};
ghost use Rattle.points_linkages.specs.Linkages.{linkage_of};
ghost use Rattle.points_linkages.specs.Points.{point_of};
ghost use Rattle.text_views.specs.TextViews.{characters_of, field_of, text_of};
ghost use Rattle.curve_views.specs.CurveViews.{curve_of};
ghost use Rattle.range_checks.specs.InRange.{in_range_of};
ghost use Rattle.finder.specs.Finder.{find_of};
ghost use Rattle.finder.specs.declared.Wanted.TheVariants.{Live, WithDeleted};
ghost use Rattle.lookup.specs.Live.{live_look_up_of};
ghost use Rattle.lookup.specs.LookUp.{look_up_of};
ghost use Rattle.edits.specs.Calls.{insert_call, remove_call, rename_call, undo_call};
ghost use Rattle.opening.specs.Opening.{session_of};
ghost use Rattle.indexed.specs.Indexed.{session_indexed};
ghost use Rattle.blocks.specs.Blocks.{flat_of, stored};
ghost use Rattle.blocks.specs.Calls.{from_blocks, to_blocks};
ghost use Rattle.answers.specs.Answers.{Replied};
ghost use Rattle.dgn.specs.JudgeFind.{find_reply, judge_reply};
ghost use Rattle.dgn_index.specs.IndexNumbers.{CellsLeft, IndexLeft, look_reply};
ghost use Rattle.dgn_places.specs.ExtentPoint.{extent_reply, point_reply};
ghost use Rattle.dgn_text.specs.TextReplies.{characters_reply, field_reply, text_reply};
ghost use Rattle.dgn_curve.specs.CurveReplies.{CurveReplied};
ghost use Rattle.dgn_views.specs.Views.{view_reply};
ghost use Rattle.dgn_all_views.specs.Answers.{ViewsGiven};
ghost use Rattle.dgn_points.specs.Answers.{PointsGiven};
ghost use Rattle.dgn_texts.specs.Answers.{TextsGiven};
ghost use Rattle.dgn_curves.specs.Answers.{CurvesGiven};
ghost use Rattle.dgn_curves.specs.Curves.{both};
ghost use Rattle.dgn_ranges.specs.Answers.{RangesGiven};
ghost use Rattle.dgn_ranges.specs.Check.{in_range_reply};
ghost use Rattle.dgn_linkages.specs.LinkageNumbers.{linkage_reply};
ghost use Rattle.dgn_names.specs.PackUnpack.{pack_reply, unpack_reply};
ghost use Rattle.dgn_writer.specs.Writing.{Wrote};
ghost use Rattle.dgn_text_writer.specs.Writing.{WroteText};
ghost use Rattle.edit_answers.specs.Editing.{MarkLeft, MarkLeftAll, StepLeft, StepLeftAll, header_given};
ghost use Rattle.dgn_record.specs.LastRecord.{record_reply};
ghost use Rattle.dgn_blocks.specs.Moves.{MovedBy};
ghost use Rattle.plates.specs.Plates.{plate_of};
ghost use Rattle.dgn_plates.specs.Answers.{PlatesGiven, plate_reply};

#[unsafe(no_mangle)]
pub extern "C" fn dgn_judge(file: &[u8], dim: usize, out: &mut [usize]) -> usize
    ensures { Replied 3 (judge_reply (judge_of dim file.now)) out.old result out.new }
{
    dgn::dgn_judge(file, dim, out)
}

#[unsafe(no_mangle)]
pub extern "C" fn dgn_find(file: &[u8], dim: usize, text: &[u8], out: &mut [usize]) -> usize
    ensures { Replied 2 (find_reply (find_of Live dim file.now text.now)) out.old result out.new }
{
    dgn::dgn_find(file, dim, text, out)
}

#[unsafe(no_mangle)]
pub extern "C" fn dgn_find_with_deleted(
    file: &[u8],
    dim: usize,
    text: &[u8],
    out: &mut [usize],
) -> usize
    ensures { Replied 2 (find_reply (find_of WithDeleted dim file.now text.now)) out.old result out.new }
{
    dgn::dgn_find_with_deleted(file, dim, text, out)
}

#[unsafe(no_mangle)]
pub extern "C" fn dgn_views(
    file: &[u8],
    dim: usize,
    k: usize,
    views: &mut [i64],
    out: &mut [usize],
) -> usize
    ensures { ViewsGiven dim file.now k views.old out.old result views.new out.new }
{
    dgn_all_views::dgn_views(file, dim, k, views, out)
}

#[unsafe(no_mangle)]
pub extern "C" fn dgn_points(
    file: &[u8],
    dim: usize,
    k: usize,
    numbers: &mut [i64],
    out: &mut [usize],
) -> usize
    ensures { PointsGiven dim file.now k numbers.old out.old result numbers.new out.new }
{
    dgn_points::dgn_points(file, dim, k, numbers, out)
}

#[unsafe(no_mangle)]
pub extern "C" fn dgn_texts(
    file: &[u8],
    dim: usize,
    k: usize,
    numbers: &mut [i64],
    out: &mut [usize],
) -> usize
    ensures { TextsGiven dim file.now k numbers.old out.old result numbers.new out.new }
{
    dgn_texts::dgn_texts(file, dim, k, numbers, out)
}

#[unsafe(no_mangle)]
pub extern "C" fn dgn_curves(
    file: &[u8],
    dim: usize,
    k: usize,
    numbers: &mut [i64],
    floats: &mut [f64],
    out: &mut [usize],
) -> usize
    ensures { CurvesGiven dim file.now k (both numbers.old floats.old) out.old result (both numbers.new floats.new) out.new }
{
    dgn_curves::dgn_curves(file, dim, k, numbers, floats, out)
}

#[unsafe(no_mangle)]
pub extern "C" fn dgn_ranges(
    file: &[u8],
    dim: usize,
    k: usize,
    places: &mut [i64],
    out: &mut [usize],
) -> usize
    ensures { RangesGiven dim file.now k places.old out.old result places.new out.new }
{
    dgn_ranges::dgn_ranges(file, dim, k, places, out)
}

#[unsafe(no_mangle)]
pub extern "C" fn dgn_plates(
    file: &[u8],
    dim: usize,
    k: usize,
    numbers: &mut [i64],
    out: &mut [usize],
) -> usize
    ensures { PlatesGiven dim file.now k numbers.old out.old result numbers.new out.new }
{
    dgn_plates::dgn_plates(file, dim, k, numbers, out)
}

#[unsafe(no_mangle)]
pub extern "C" fn dgn_extent(file: &[u8], dim: usize, place: usize, out: &mut [usize]) -> usize
    ensures { Replied 2 (extent_reply (extent_answer dim file.now place)) out.old result out.new }
{
    dgn_places::dgn_extent(file, dim, place, out)
}

#[unsafe(no_mangle)]
pub extern "C" fn dgn_view(file: &[u8], dim: usize, place: usize, out: &mut [i64]) -> usize
    ensures { Replied 32 (view_reply place (view_of dim file.now place)) out.old result out.new }
{
    dgn_views::dgn_view(file, dim, place, out)
}

#[unsafe(no_mangle)]
pub extern "C" fn dgn_point(
    file: &[u8],
    dim: usize,
    place: usize,
    k: usize,
    out: &mut [i64],
) -> usize
    ensures { Replied 3 (point_reply (point_of dim file.now place k)) out.old result out.new }
{
    dgn_places::dgn_point(file, dim, place, k, out)
}

#[unsafe(no_mangle)]
pub extern "C" fn dgn_in_range(file: &[u8], dim: usize, place: usize, out: &mut [usize]) -> usize
    ensures { Replied 1 (in_range_reply (in_range_of dim file.now place)) out.old result out.new }
{
    dgn_ranges::dgn_in_range(file, dim, place, out)
}

#[unsafe(no_mangle)]
pub extern "C" fn dgn_linkage(
    file: &[u8],
    dim: usize,
    place: usize,
    k: usize,
    out: &mut [usize],
) -> usize
    ensures { Replied 4 (linkage_reply (linkage_of dim file.now place k)) out.old result out.new }
{
    dgn_linkages::dgn_linkage(file, dim, place, k, out)
}

#[unsafe(no_mangle)]
pub extern "C" fn dgn_text(file: &[u8], dim: usize, place: usize, out: &mut [i64]) -> usize
    ensures { Replied 15 (text_reply dim place (text_of dim file.now place)) out.old result out.new }
{
    dgn_text::dgn_text(file, dim, place, out)
}

#[unsafe(no_mangle)]
pub extern "C" fn dgn_characters(file: &[u8], dim: usize, place: usize, out: &mut [usize]) -> usize
    ensures { Replied 2 (characters_reply (characters_of dim file.now place)) out.old result out.new }
{
    dgn_text::dgn_characters(file, dim, place, out)
}

#[unsafe(no_mangle)]
pub extern "C" fn dgn_field(
    file: &[u8],
    dim: usize,
    place: usize,
    k: usize,
    out: &mut [i64],
) -> usize
    ensures { Replied 3 (field_reply (field_of dim file.now place k)) out.old result out.new }
{
    dgn_text::dgn_field(file, dim, place, k, out)
}

#[unsafe(no_mangle)]
pub extern "C" fn dgn_curve(
    file: &[u8],
    dim: usize,
    place: usize,
    numbers: &mut [i64],
    floats: &mut [f64],
) -> usize
    ensures { CurveReplied (curve_of dim file.now place) numbers.old floats.old result numbers.new floats.new }
{
    dgn_curve::dgn_curve(file, dim, place, numbers, floats)
}

#[unsafe(no_mangle)]
pub extern "C" fn dgn_plate(file: &[u8], dim: usize, place: usize, out: &mut [i64]) -> usize
    ensures { Replied 9 (plate_reply (plate_of dim file.now place)) out.old result out.new }
{
    dgn_plates::dgn_plate(file, dim, place, out)
}

#[unsafe(no_mangle)]
pub extern "C" fn dgn_pack(text: &[u8], out: &mut [usize]) -> usize
    ensures { Replied 2 (pack_reply (packed text.now)) out.old result out.new }
{
    dgn_names::dgn_pack(text, out)
}

#[unsafe(no_mangle)]
pub extern "C" fn dgn_unpack(first: usize, second: usize, text: &mut [u8]) -> usize
    ensures { Replied 7 (unpack_reply (unpacked first second)) text.old result text.new }
{
    dgn_names::dgn_unpack(first, second, text)
}

#[unsafe(no_mangle)]
pub extern "C" fn dgn_cells(file: &[u8], dim: usize, entries: &mut [u8], out: &mut [usize]) -> usize
    ensures { CellsLeft dim file.now entries.old out.old result entries.new out.new }
{
    dgn_index::dgn_cells(file, dim, entries, out)
}

#[unsafe(no_mangle)]
pub extern "C" fn dgn_index(file: &[u8], dim: usize, index: &mut [u8], out: &mut [usize]) -> usize
    ensures { IndexLeft dim file.now index.old out.old result index.new out.new }
{
    dgn_index::dgn_index(file, dim, index, out)
}

#[unsafe(no_mangle)]
pub extern "C" fn dgn_look_up(
    file: &[u8],
    dim: usize,
    index: &[u8],
    used: usize,
    text: &[u8],
    out: &mut [usize],
) -> usize
    ensures { Replied 2 (look_reply (live_look_up_of dim file.now index.now used text.now)) out.old result out.new }
{
    dgn_index::dgn_look_up(file, dim, index, used, text, out)
}

#[unsafe(no_mangle)]
pub extern "C" fn dgn_look_up_with_deleted(
    index: &[u8],
    used: usize,
    text: &[u8],
    out: &mut [usize],
) -> usize
    ensures { Replied 2 (look_reply (look_up_of index.now used text.now)) out.old result out.new }
{
    dgn_index::dgn_look_up_with_deleted(index, used, text, out)
}

#[unsafe(no_mangle)]
pub extern "C" fn dgn_write(
    fields: &[i64],
    points: &[i32],
    tail: &[u8],
    dim: usize,
    buffer: &mut [u8],
    out: &mut [usize],
) -> usize
    ensures { Wrote dim fields.now points.now tail.now buffer.old out.old result buffer.new out.new }
{
    dgn_writer::dgn_write(fields, points, tail, dim, buffer, out)
}

#[unsafe(no_mangle)]
pub extern "C" fn dgn_write_text(
    fields: &[i64],
    text: &[i64],
    characters: &[u8],
    triples: &[u8],
    tail: &[u8],
    dim: usize,
    buffer: &mut [u8],
    out: &mut [usize],
) -> usize
    ensures { WroteText dim fields.now text.now characters.now triples.now tail.now buffer.old out.old result buffer.new out.new }
{
    dgn_text_writer::dgn_write_text(fields, text, characters, triples, tail, dim, buffer, out)
}

#[unsafe(no_mangle)]
pub extern "C" fn dgn_mark(
    file: &mut [u8],
    used: usize,
    journal: &mut [u8],
    jused: usize,
    dim: usize,
    place: usize,
    deleted: usize,
    out: &mut [usize],
) -> usize
    ensures { MarkLeft dim (session_of file.old used journal.old jused) place deleted out.old result file.new journal.new out.new }
{
    dgn_marks::dgn_mark(file, used, journal, jused, dim, place, deleted, out)
}

#[unsafe(no_mangle)]
pub extern "C" fn dgn_rename(
    file: &mut [u8],
    used: usize,
    journal: &mut [u8],
    jused: usize,
    dim: usize,
    place: usize,
    text: &[u8],
    out: &mut [usize],
) -> usize
    ensures { StepLeft dim (session_of file.old used journal.old jused) (rename_call place text.now) out.old result file.new journal.new out.new }
{
    dgn_marks::dgn_rename(file, used, journal, jused, dim, place, text, out)
}

#[unsafe(no_mangle)]
pub extern "C" fn dgn_insert(
    file: &mut [u8],
    used: usize,
    journal: &mut [u8],
    jused: usize,
    dim: usize,
    header: usize,
    place: usize,
    piece: &[u8],
    out: &mut [usize],
) -> usize
    ensures { StepLeft dim (session_of file.old used journal.old jused) (insert_call (header_given header) place piece.now) out.old result file.new journal.new out.new }
{
    dgn_moves::dgn_insert(file, used, journal, jused, dim, header, place, piece, out)
}

#[unsafe(no_mangle)]
pub extern "C" fn dgn_remove(
    file: &mut [u8],
    used: usize,
    journal: &mut [u8],
    jused: usize,
    dim: usize,
    place: usize,
    out: &mut [usize],
) -> usize
    ensures { StepLeft dim (session_of file.old used journal.old jused) (remove_call place) out.old result file.new journal.new out.new }
{
    dgn_moves::dgn_remove(file, used, journal, jused, dim, place, out)
}

#[unsafe(no_mangle)]
pub extern "C" fn dgn_undo(
    file: &mut [u8],
    used: usize,
    journal: &[u8],
    jused: usize,
    dim: usize,
    out: &mut [usize],
) -> usize
    ensures { StepLeft dim (session_of file.old used journal.now jused) undo_call out.old result file.new journal.now out.new }
{
    dgn_undo::dgn_undo(file, used, journal, jused, dim, out)
}

#[unsafe(no_mangle)]
pub extern "C" fn dgn_mark_indexed(
    file: &mut [u8],
    used: usize,
    journal: &mut [u8],
    jused: usize,
    index: &mut [u8],
    iused: usize,
    dim: usize,
    place: usize,
    deleted: usize,
    out: &mut [usize],
) -> usize
    ensures { MarkLeftAll dim (session_indexed file.old used journal.old jused index.old iused) place deleted out.old result file.new journal.new (some index.new) out.new }
{
    dgn_indexed::dgn_mark_indexed(
        file, used, journal, jused, index, iused, dim, place, deleted, out,
    )
}

#[unsafe(no_mangle)]
pub extern "C" fn dgn_rename_indexed(
    file: &mut [u8],
    used: usize,
    journal: &mut [u8],
    jused: usize,
    index: &mut [u8],
    iused: usize,
    dim: usize,
    place: usize,
    text: &[u8],
    out: &mut [usize],
) -> usize
    ensures { StepLeftAll dim (session_indexed file.old used journal.old jused index.old iused) (rename_call place text.now) out.old result file.new journal.new (some index.new) out.new }
{
    dgn_indexed::dgn_rename_indexed(
        file, used, journal, jused, index, iused, dim, place, text, out,
    )
}

#[unsafe(no_mangle)]
pub extern "C" fn dgn_insert_indexed(
    file: &mut [u8],
    used: usize,
    journal: &mut [u8],
    jused: usize,
    index: &mut [u8],
    iused: usize,
    dim: usize,
    header: usize,
    place: usize,
    piece: &[u8],
    out: &mut [usize],
) -> usize
    ensures { StepLeftAll dim (session_indexed file.old used journal.old jused index.old iused) (insert_call (header_given header) place piece.now) out.old result file.new journal.new (some index.new) out.new }
{
    dgn_indexed::dgn_insert_indexed(
        file, used, journal, jused, index, iused, dim, header, place, piece, out,
    )
}

#[unsafe(no_mangle)]
pub extern "C" fn dgn_remove_indexed(
    file: &mut [u8],
    used: usize,
    journal: &mut [u8],
    jused: usize,
    index: &mut [u8],
    iused: usize,
    dim: usize,
    place: usize,
    out: &mut [usize],
) -> usize
    ensures { StepLeftAll dim (session_indexed file.old used journal.old jused index.old iused) (remove_call place) out.old result file.new journal.new (some index.new) out.new }
{
    dgn_indexed::dgn_remove_indexed(file, used, journal, jused, index, iused, dim, place, out)
}

#[unsafe(no_mangle)]
pub extern "C" fn dgn_undo_indexed(
    file: &mut [u8],
    used: usize,
    journal: &[u8],
    jused: usize,
    index: &mut [u8],
    iused: usize,
    dim: usize,
    out: &mut [usize],
) -> usize
    ensures { StepLeftAll dim (session_indexed file.old used journal.now jused index.old iused) undo_call out.old result file.new journal.now (some index.new) out.new }
{
    dgn_indexed::dgn_undo_indexed(file, used, journal, jused, index, iused, dim, out)
}

#[unsafe(no_mangle)]
pub extern "C" fn dgn_record(journal: &[u8], jused: usize, out: &mut [usize]) -> usize
    ensures { Replied 5 (record_reply journal.now jused) out.old result out.new }
{
    dgn_record::dgn_record(journal, jused, out)
}

#[unsafe(no_mangle)]
pub extern "C" fn dgn_journal_to_blocks(
    journal: &[u8],
    buffer: &mut [u8],
    out: &mut [usize],
) -> usize
    ensures { MovedBy (to_blocks journal.now (length buffer.old)) (stored journal.now) buffer.old out.old result buffer.new out.new }
{
    dgn_blocks::dgn_journal_to_blocks(journal, buffer, out)
}

#[unsafe(no_mangle)]
pub extern "C" fn dgn_journal_from_blocks(
    stored: &[u8],
    journal: &mut [u8],
    out: &mut [usize],
) -> usize
    ensures { MovedBy (from_blocks stored.now (length journal.old)) (flat_of stored.now) journal.old out.old result journal.new out.new }
{
    dgn_blocks::dgn_journal_from_blocks(stored, journal, out)
}
