//! Elements that are made by hand: calls of `stanza_tree` with ample memory, whose answers are compared.

use stanza_tree::{Element, Text, TextFault, write};
use std::alloc::Global;
use std::process::Abort;
use std::test::Fail;

fn text_of(alloc: Global, bytes: &[u8]) -> Result<Text, Fail> {
    match Text::of(alloc, bytes) {
        Ok(text) => Ok(text),
        Err(_) => Err(Fail::new("no text")),
    }
}

fn expect_spelling<R: Abort>(
    rt: &R,
    alloc: Global,
    element: &Element,
    want: &[u8],
) -> Result<(), Fail> {
    let mut text = Vec::new(alloc);
    write(element, &mut text)?;
    assert!(rt; text.as_slice() == want, "{want:?}");
    Ok(())
}

#[test]
fn an_element_is_made_and_its_attributes_are_set(rt: HostRuntime) -> Result<(), Fail> {
    let alloc = rt.alloc();
    let Ok(mut element) = Element::new(alloc, b"jabber:client", b"message") else {
        return Err(Fail::new("no element"));
    };
    expect_spelling(&rt, alloc, &element, b"<message/>")?;
    element.set_attr(alloc, b"to", text_of(alloc, b"bob@example.org")?)?;
    element.set_attr(alloc, b"id", text_of(alloc, b"a")?)?;
    expect_spelling(
        &rt,
        alloc,
        &element,
        b"<message to='bob@example.org' id='a'/>",
    )?;
    element.set_attr(alloc, b"to", text_of(alloc, b"eve@example.org")?)?;
    expect_spelling(
        &rt,
        alloc,
        &element,
        b"<message to='eve@example.org' id='a'/>",
    )
}

#[test]
fn a_name_that_is_no_text_makes_no_element(rt: HostRuntime) -> Result<(), Fail> {
    let of_space = Element::new(rt.alloc(), b"a\xFF", b"b\xFF");
    assert!(rt; matches!(of_space, Err(TextFault::NotUtf8(1))));
    let of_name = Element::new(rt.alloc(), b"a", b"bc\xFF");
    assert!(rt; matches!(of_name, Err(TextFault::NotUtf8(2))));
    Ok(())
}
