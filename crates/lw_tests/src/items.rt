use lw_model::{Items, Limits, Text};
use std::test::Fail;

#[test]
fn items_keep_their_order(rt: HostRuntime) -> Result<(), Fail> {
    let alloc = rt.alloc();
    let mut items: Items<u8> = Items::new(alloc);
    items.push(3)?;
    items.push(5)?;
    assert!(rt; items.len() == 2);
    assert!(rt; items.as_slice() == [3, 5].as_slice());
    let vec = items.into_vec();
    assert!(rt; vec.len() == 2);
    let again = Items::from_vec(vec);
    assert!(rt; again.as_slice()[1] == 5);
    Ok(())
}

#[test]
fn a_text_lends_its_bytes(rt: HostRuntime) -> Result<(), Fail> {
    let text = Text::from_string(format!(in rt.alloc(); "image {}", 4)?);
    assert!(rt; text.as_str() == "image 4");
    Ok(())
}

#[test]
fn the_standard_limits(rt: HostRuntime) -> Result<(), Fail> {
    let limits = Limits::standard();
    assert!(rt; limits.load == 20 && limits.core == 80 && limits.busy == 95);
    Ok(())
}
