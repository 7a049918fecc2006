// R-10: every legal control chain, as a line of letters: the phases of document 01's table up to the Status Stage TRB, in the form of
// `shape_lines`. What is chosen and what is left fit in a shape together: a fact of the arguments of functions that call each other, and
// change both.
#![tactic(auto)]

ghost use Rattle.std.specs.Prelude.{◌++◌, [], ◌+◌, ◌≤◌, ◌<◌};
ghost use Rattle.text.specs.Wrote.{HasRoom, Wrote};
ghost use Rattle.shapes.specs.Letters.{E, N, d, e, n, t};
ghost use Rattle.shapes.specs.Lists.{max_shape, after, request_made, status_stage, more_data, data_stage, shapes};
ghost use Rattle.shape_lines.specs.Chosen.{letters_of};
ghost use Rattle.shape_lines.specs.Lines.{lines, shapes_text, max_text, Laid};

use shape_lines::Chosen;
use text::Text;

// The last TRB of the data part, which is not chained: Event Data or Normal.
fn data_end(text: &mut Text<'_>, chosen: Chosen, left: usize)
    requires { chosen.size + left < max_shape }
    ensures { Laid (lines (letters_of chosen) (after e (status_stage left) ++ after n (status_stage left))) text.old text.new }
{
    shape_lines::status_stage(text, chosen.with_letter(b'e'), left);
    shape_lines::status_stage(text, chosen.with_letter(b'n'), left);
}

// A chained Event Data TRB, and then in MoreData. A rule of the project gives the form: it and `normal` call each other.
#[cycle(event_data_normal)]
fn event_data(text: &mut Text<'_>, chosen: Chosen, left: usize)
    requires { chosen.size + left < max_shape }
    ensures { Laid (lines (letters_of chosen) (after E (more_data left))) text.old text.new }
{
    if left == 0 {
        return;
    }
    let next = chosen.with_letter(b'E');
    event_data(text, next, left - 1);
    normal(text, next, left - 1);
    data_end(text, next, left - 1);
}

// A chained Normal TRB, and then in MoreData.
#[cycle(event_data_normal)]
fn normal(text: &mut Text<'_>, chosen: Chosen, left: usize)
    requires { chosen.size + left < max_shape }
    ensures { Laid (lines (letters_of chosen) (after N (more_data left))) text.old text.new }
{
    if left == 0 {
        return;
    }
    let next = chosen.with_letter(b'N');
    event_data(text, next, left - 1);
    normal(text, next, left - 1);
    data_end(text, next, left - 1);
}

// In MoreData.
fn more_data(text: &mut Text<'_>, chosen: Chosen, left: usize)
    requires { chosen.size + left ≤ max_shape }
    ensures { Laid (lines (letters_of chosen) (more_data left)) text.old text.new }
{
    if left == 0 {
        return;
    }
    event_data(text, chosen, left - 1);
    normal(text, chosen, left - 1);
    data_end(text, chosen, left - 1);
}

// In MaybeDataStageTrb, the Data Stage TRB or the Status Stage TRB not chained.
fn unchained_stage(text: &mut Text<'_>, chosen: Chosen, left: usize)
    requires { chosen.size + left < max_shape }
    ensures { Laid (lines (letters_of chosen) (after d (status_stage left) ++ after t (request_made left))) text.old text.new }
{
    shape_lines::status_stage(text, chosen.with_letter(b'd'), left);
    shape_lines::request_made(text, chosen.with_letter(b't'), left);
}

// In MaybeDataStageTrb.
fn data_stage(text: &mut Text<'_>, chosen: Chosen, left: usize)
    requires { chosen.size + left ≤ max_shape }
    ensures { Laid (lines (letters_of chosen) (data_stage left)) text.old text.new }
{
    if left == 0 {
        return;
    }
    more_data(text, chosen.with_letter(b'D'), left - 1);
    shape_lines::final_event_data(text, chosen.with_letter(b'T'), left - 1);
    unchained_stage(text, chosen, left - 1);
}

// The shapes of one length.
fn shapes_of(text: &mut Text<'_>, size: usize)
    requires { size ≤ max_shape }
    ensures { Laid (lines [] (shapes size)) text.old text.new }
{
    if size == 0 {
        return;
    }
    data_stage(text, Chosen::new().with_letter(b's'), size - 1);
}

// Writes the shapes up to a length, the shorter first; there is none of length 0 or 1.
pub fn shapes_up_to(text: &mut Text<'_>, longest: usize)
    requires longest_le_max_shape { longest ≤ max_shape }
    requires has_room { HasRoom max_text text.old }
    ensures { Wrote max_text text.old (shapes_text longest) text.new }
{
    for size in 0..longest {
        shapes_of(text, size + 1);
    }
}
