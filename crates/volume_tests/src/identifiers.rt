//! Which bytes are an identifier.
use document_store::is_identifier;
use std::test::Fail;

#[test]
fn an_identifier_has_1_to_200_printing_characters(rt: HostRuntime) -> Result<(), Fail> {
    for (bytes, is) in [
        ([].as_slice(), false),
        (b"!".as_slice(), true),
        (b"~".as_slice(), true),
        (b" ".as_slice(), false),
        (b"a b".as_slice(), false),
        (b"\x7f".as_slice(), false),
        ([b'a'; 200].as_slice(), true),
        ([b'a'; 201].as_slice(), false),
    ] {
        assert_eq!(rt; is_identifier(bytes), is);
    }
    Ok(())
}
