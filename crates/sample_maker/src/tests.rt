use super::*;
use std::test::Fail;

#[test]
fn two_records(rt: HostRuntime) -> Result<(), Fail> {
    let alloc = rt.alloc();
    let mut sample = make_sample(2);
    let mut all = String::new(alloc);
    for _ in 0..4 {
        if let Some(piece) = sample.next(alloc)? {
            all.push_str(piece.as_str())?;
        }
    }
    assert_eq!(rt;
        all.as_str(),
        "<list>\n<rec id=\"1\"><name>item 1</name><qty>7</qty></rec>\n<rec id=\"2\"><name>item 2</name><qty>4</qty></rec>\n</list>\n"
    );
    assert_eq!(rt; all.len(), 115);
    let is_over = sample.next(alloc)?.is_none();
    assert_eq!(rt; is_over, true);
    Ok(())
}
