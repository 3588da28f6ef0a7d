//! Remarks on spans of Zipkin that are read as spans of OpenTelemetry.
use map_zipkin::triple_of_span;
use row_tables::texts::MARKED_SPANS;
use std::alloc::Global;
use std::test::Fail;
use trace_model::{Remark, RemarkKind};
use zipkin_json::{ZSpan, read_text};

fn are_kept(remarks: &[Remark]) -> bool {
    match remarks {
        [remark] => {
            remark.kind == RemarkKind::TagDropped && remark.key.as_str() == "zipkin.shared"
        }
        _ => false,
    }
}

fn is_read(alloc: Global, span: ZSpan) -> bool {
    match triple_of_span(alloc, span) {
        Ok((_run, _read, remarks)) => are_kept(remarks.as_slice()),
        Err(_) => false,
    }
}

#[test]
fn drops_a_tag(rt: HostRuntime) -> Result<(), Fail> {
    let spans = read_text(rt.alloc(), MARKED_SPANS.as_bytes())?;
    assert!(rt; spans.len() == 1);
    for span in spans.into_vec() {
        assert!(rt; is_read(rt.alloc(), span));
    }
    Ok(())
}
