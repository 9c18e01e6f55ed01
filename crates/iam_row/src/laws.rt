// Laws of reports that are put together from pieces, for those who make one; and that there is one report.
ghost use Rattle.std.specs.Prelude.{◌≡◌, List, false, length, map, true};
ghost use Rattle.iam_decision.specs.declared.verdict.Decision.{Decision};
ghost use Rattle.iam_decision.specs.declared.verdict.Verdict.{Verdict};
ghost use Rattle.iam_world.specs.World.{WorldValue, world_cells};
ghost use Rattle.iam_row.specs.Laws.{OneRow, OneText};
ghost use Rattle.iam_row.specs.Piece.{IsQuotedOf, brief_tail, full_tail, text_of};
ghost use Rattle.iam_row.specs.Report.{IsReport, brief_layout, full_layout};
ghost use Rattle.iam_row.specs.declared.quoted.Quoted.{Quoted};

use iam_layers::one_triple;

/// What is put together from the world's texts and the tails of the verdicts of all cells is their report.
pub fn full_texts()
    ensures { (world : WorldValue) (quoted : Quoted) (verdicts : List Verdict)
        → IsQuotedOf world quoted → length verdicts ≡ world_cells world
        → IsReport full_layout quoted.format world verdicts
        (text_of (record { quoted = quoted; brief = false; tails = map (full_tail quoted.format) verdicts })) }
{}

/// What is put together from the world's texts and the tails of the decisions of all cells is their brief report.
pub fn brief_texts()
    ensures { (world : WorldValue) (quoted : Quoted) (decisions : List Decision)
        → IsQuotedOf world quoted → length decisions ≡ world_cells world
        → IsReport brief_layout quoted.format world decisions
        (text_of (record { quoted = quoted; brief = true; tails = map (brief_tail quoted.format) decisions })) }
{}

/// The verdicts of all cells have at most one report in a format, and so have the decisions, in brief.
pub fn one_text()
    ensures full { OneText full_layout }
    ensures brief { OneText brief_layout }
{
    one_triple()
}

/// The header and the row of a verdict on a cell are at most one text, and so are those of a decision, in brief.
pub fn one_row()
    ensures full { OneRow full_layout }
    ensures brief { OneRow brief_layout }
{}
