use super::*;

#[test]
fn lower_case_words_outside_the_language_are_names(rt: HostRuntime) {
    let names: [(&[u8], bool); 12] = [
        (b"q", true),
        (b"tA_0", true),
        (b"h", true),
        (b"pi2", true),
        (b"iff", true),
        (b"Q", false),
        (b"_q", false),
        (b"0q", false),
        (b"q-r", false),
        (b"pi", false),
        (b"measure", false),
        (b"", false),
    ];
    for (name, lawful) in names {
        assert!(rt; is_lawful_name(name) == lawful, "at {name:?}");
    }
    assert!(rt; is_among(&["a", "bc"], b"bc"));
    assert!(rt; !is_among(&["a", "bc"], b"b"));
}
