//! Laws of moves from one form to another, as contracts of functions that do nothing.
ghost use Rattle.std.specs.Prelude.{List};
ghost use Rattle.span_io.specs.declared.form.Form.{Form};
ghost use Rattle.trace_model.specs.declared.group.Group.{Group};
ghost use Rattle.span_moves.specs.Keeps.{EachSpan};
ghost use Rattle.span_convert.specs.Moves.{IsKeptBy, IsNormalTrace};
ghost use Rattle.span_convert.specs.Units.{normal_form};
ghost use Rattle.span_convert.specs.Verdicts.{CanHoldTrace};

/// Of a trace that the one form leaves as it is, as each trace that is read of it, the other takes a
/// normal form that the one can hold and leaves as it is: a second move, back or there again, loses
/// nothing more.
pub fn there_and_back()
    ensures { (from to : Form) (groups : List Group) → IsNormalTrace from groups
        → CanHoldTrace to groups
        → IsNormalTrace from (normal_form to groups) }
{
    map_jaeger::laws::normal_forms();
    map_zipkin::laws::zipkin_normal_forms();
    span_moves::pairs::from_jaeger_to_zipkin();
    span_moves::pairs::from_zipkin_to_jaeger();
    span_moves::kept::no_double_made();
}

/// The normal form of each form has all spans of the trace in their order, each with what the form
/// keeps of it.
pub fn kept()
    ensures { (to : Form) (groups : List Group)
        → EachSpan (IsKeptBy to) groups (normal_form to groups) }
{
    span_moves::kept::spans_kept();
}
