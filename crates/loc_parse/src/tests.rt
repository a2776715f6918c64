// Lists filled record by record, and lent.
// The numbers are the first of the load that README names.
use crate::Fields;
use crate::lists::Lists;

#[test]
#[tactic(auto, unfolding(crate::specs::Lines::added))]
fn lends_what_is_pushed(rt: HostRuntime) {
    let mut lists = Lists::new();
    lists.push(Fields {
        number: 1,
        start: 16,
        len: 1704,
        span_start: 16,
        span_len: 928,
        spans: 116,
    });
    lists.push(Fields {
        number: 2,
        start: 1720,
        len: 904,
        span_start: 944,
        span_len: 1232,
        spans: 154,
    });
    let batch = lists.batch();
    assert_eq!(rt; batch.starts, [16, 1720].as_slice());
    assert_eq!(rt; batch.lens, [1704, 904].as_slice());
    assert_eq!(rt; batch.span_starts, [16, 944].as_slice());
    assert_eq!(rt; batch.span_counts, [116, 154].as_slice());
}
