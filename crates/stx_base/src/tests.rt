use super::*;
use std::alloc::Global;
use std::fmt::Debug;
use std::process::Abort;
use std::test::Fail;

// Each row: a character, and whether it is a Char, white space, a NameStartChar and a NameChar (XML 1.0, 2.2 and 2.3).
const CLASSES: [(char, bool, bool, bool, bool); 76] = [
    ('\0', false, false, false, false),
    ('\u{8}', false, false, false, false),
    ('\t', true, true, false, false),
    ('\n', true, true, false, false),
    ('\u{B}', false, false, false, false),
    ('\u{C}', false, false, false, false),
    ('\r', true, true, false, false),
    ('\u{E}', false, false, false, false),
    ('\u{1F}', false, false, false, false),
    (' ', true, true, false, false),
    ('!', true, false, false, false),
    (',', true, false, false, false),
    ('-', true, false, false, true),
    ('.', true, false, false, true),
    ('/', true, false, false, false),
    ('0', true, false, false, true),
    ('9', true, false, false, true),
    (':', true, false, true, true),
    (';', true, false, false, false),
    ('@', true, false, false, false),
    ('A', true, false, true, true),
    ('Z', true, false, true, true),
    ('[', true, false, false, false),
    ('^', true, false, false, false),
    ('_', true, false, true, true),
    ('`', true, false, false, false),
    ('a', true, false, true, true),
    ('z', true, false, true, true),
    ('{', true, false, false, false),
    ('\u{7F}', true, false, false, false),
    ('\u{85}', true, false, false, false),
    ('\u{A0}', true, false, false, false),
    ('\u{B6}', true, false, false, false),
    ('\u{B7}', true, false, false, true),
    ('\u{B8}', true, false, false, false),
    ('\u{BF}', true, false, false, false),
    ('\u{C0}', true, false, true, true),
    ('\u{D6}', true, false, true, true),
    ('\u{D7}', true, false, false, false),
    ('\u{D8}', true, false, true, true),
    ('\u{F6}', true, false, true, true),
    ('\u{F7}', true, false, false, false),
    ('\u{F8}', true, false, true, true),
    ('\u{2FF}', true, false, true, true),
    ('\u{300}', true, false, false, true),
    ('\u{36F}', true, false, false, true),
    ('\u{370}', true, false, true, true),
    ('\u{37D}', true, false, true, true),
    ('\u{37E}', true, false, false, false),
    ('\u{37F}', true, false, true, true),
    ('\u{1FFF}', true, false, true, true),
    ('\u{2000}', true, false, false, false),
    ('\u{200B}', true, false, false, false),
    ('\u{200C}', true, false, true, true),
    ('\u{200D}', true, false, true, true),
    ('\u{200E}', true, false, false, false),
    ('\u{203E}', true, false, false, false),
    ('\u{203F}', true, false, false, true),
    ('\u{2040}', true, false, false, true),
    ('\u{2041}', true, false, false, false),
    ('\u{206F}', true, false, false, false),
    ('\u{2070}', true, false, true, true),
    ('\u{218F}', true, false, true, true),
    ('\u{2190}', true, false, false, false),
    ('\u{2BFF}', true, false, false, false),
    ('\u{2C00}', true, false, true, true),
    ('\u{2FEF}', true, false, true, true),
    ('\u{2FF0}', true, false, false, false),
    ('\u{3000}', true, false, false, false),
    ('\u{3001}', true, false, true, true),
    ('\u{D7FF}', true, false, true, true),
    ('\u{E000}', true, false, false, false),
    ('\u{F8FF}', true, false, false, false),
    ('\u{F900}', true, false, true, true),
    ('\u{FDCF}', true, false, true, true),
    ('\u{FDD0}', true, false, false, false),
];

const HIGH_CLASSES: [(char, bool, bool, bool, bool); 8] = [
    ('\u{FDEF}', true, false, false, false),
    ('\u{FDF0}', true, false, true, true),
    ('\u{FFFD}', true, false, true, true),
    ('\u{FFFE}', false, false, false, false),
    ('\u{FFFF}', false, false, false, false),
    ('\u{10000}', true, false, true, true),
    ('\u{EFFFF}', true, false, true, true),
    ('\u{F0000}', true, false, false, false),
];

fn check_classes(rt: &impl Abort, rows: &[(char, bool, bool, bool, bool)]) {
    for (c, char, space, start, name) in rows {
        let found = (
            is_char(*c),
            is_space(*c),
            is_name_start(*c),
            is_name_char(*c),
        );
        assert_eq!(rt; found, (*char, *space, *start, *name), "at {c:?}");
    }
}

#[test]
fn classes_at_their_edges(rt: HostRuntime) {
    check_classes(&rt, &CLASSES);
    check_classes(&rt, &HIGH_CLASSES);
    assert!(rt; is_char('\u{10FFFF}'));
}

#[test]
fn ascii_bytes_of_names(rt: HostRuntime) {
    for byte in 0..=255u8 {
        let c = char::from(byte);
        let wanted = c.is_ascii() && is_name_char(c);
        assert_eq!(rt; is_ascii_name_byte(byte), wanted, "{byte}");
        assert_eq!(rt; is_ascii_ncname_byte(byte), wanted && c != ':', "{byte}");
    }
}

#[test]
fn ascii_chars(rt: HostRuntime) {
    for byte in 0..=255u8 {
        let wanted = byte < 128 && is_char(char::from(byte));
        assert_eq!(rt; is_ascii_char(byte), wanted, "{byte}");
        // Few bytes are compared one by one, and many at once.
        let mut many = [b'a'; 40];
        many[39] = byte;
        assert_eq!(rt; are_ascii_chars(&many), wanted, "{byte}");
        assert_eq!(rt; are_ascii_chars(&many[32..]), wanted, "{byte}");
    }
    assert!(rt; are_ascii_chars(b""));
}

#[test]
fn names_without_colon(rt: HostRuntime) {
    for (text, wanted) in [
        ("", false),
        ("a", true),
        ("_1.-", true),
        ("a:b", false),
        (":a", false),
        ("-a", false),
        ("1a", false),
        ("9a", false),
        ("Zz09", true),
        ("[a", false),
        ("a[", false),
        ("a{", false),
        ("é", true),
        ("aé:", false),
        ("a·", true),
        ("·a", false),
        ("a b", false),
    ] {
        assert_eq!(rt; is_ncname(text), wanted, "{text}");
    }
    assert!(rt; is_name("a:b") && is_name(":") && !is_name("-a") && !is_name(""));
}

#[test]
fn texts_of_cdata_sections(rt: HostRuntime) {
    for (text, wanted) in [
        ("", true),
        ("]]", true),
        ("]>", true),
        ("]] >", true),
        ("]]é>", true),
        ("]]>", false),
        ("]]]>", false),
        ("é]]]]>é", false),
        ("]>]]>", false),
        ("<&>\t\n", true),
        ("a\rb", false),
        ("\r\n", false),
        ("\u{1}", false),
        ("\u{FFFE}", false),
        ("\u{10FFFF}", true),
    ] {
        assert_eq!(rt; is_cdata_text(text), wanted, "{text:?}");
    }
}

fn expanded(alloc: Global) -> Result<Name, Memory> {
    let uri = Text::of(alloc, "http://example.com/")?;
    let local = Text::of(alloc, "réel")?;
    let prefix = Text::of(alloc, "p")?;
    Ok(Name { uri, local, prefix })
}

fn bound(alloc: Global) -> Result<Binding, Memory> {
    let prefix = Text::of(alloc, "p")?;
    let uri = Text::of(alloc, "u")?;
    Ok(Binding { prefix, uri })
}

fn copies<T: Copied + Debug + Drop>(rt: &impl Abort, alloc: Global, value: T) -> Result<(), Fail> {
    let copy = value.copy(alloc)?;
    let wanted = format!(in alloc; "{value:?}")?;
    let found = format!(in alloc; "{copy:?}")?;
    assert_eq!(rt; found.as_str(), wanted.as_str());
    Ok(())
}

#[test]
fn copies_of_names(rt: HostRuntime) -> Result<(), Fail> {
    let alloc = rt.alloc();
    copies(&rt, alloc, Text::of(alloc, "a\u{1F600}")?)?;
    copies(&rt, alloc, expanded(alloc)?)?;
    copies(&rt, alloc, bound(alloc)?)?;
    let name = expanded(alloc)?;
    let value = Text::of(alloc, "v")?;
    copies(&rt, alloc, Attr { name, value })?;
    let mut list = List::new(alloc);
    list.push(bound(alloc)?)?;
    copies(&rt, alloc, list)?;
    copies(&rt, alloc, First::Chars(Text::of(alloc, "t")?))?;
    copies(&rt, alloc, First::Other)?;
    copies(&rt, alloc, First::Nothing)
}

#[test]
fn copies_of_parts(rt: HostRuntime) -> Result<(), Fail> {
    let alloc = rt.alloc();
    let mut scope = List::new(alloc);
    scope.push(bound(alloc)?)?;
    copies(
        &rt,
        alloc,
        Part::Start {
            name: expanded(alloc)?,
            scope,
        },
    )?;
    copies(
        &rt,
        alloc,
        Part::Attribute {
            name: expanded(alloc)?,
            value: Text::of(alloc, "v")?,
        },
    )?;
    copies(
        &rt,
        alloc,
        Part::End {
            name: expanded(alloc)?,
        },
    )?;
    copies(
        &rt,
        alloc,
        Part::Chars {
            text: Text::of(alloc, "t")?,
        },
    )?;
    copies(
        &rt,
        alloc,
        Part::Comment {
            text: Text::of(alloc, "c")?,
        },
    )?;
    copies(
        &rt,
        alloc,
        Part::Pi {
            target: Text::of(alloc, "t")?,
            text: Text::of(alloc, "d")?,
        },
    )
}

#[test]
fn copies_of_node_tests(rt: HostRuntime) -> Result<(), Fail> {
    let alloc = rt.alloc();
    copies(&rt, alloc, NodeTest::Document)?;
    copies(&rt, alloc, NodeTest::Name(expanded(alloc)?))?;
    copies(&rt, alloc, NodeTest::Prefix(bound(alloc)?))?;
    copies(&rt, alloc, NodeTest::AnyElement)?;
    copies(&rt, alloc, NodeTest::AnyNode)?;
    copies(&rt, alloc, NodeTest::Chars)?;
    copies(&rt, alloc, NodeTest::Comment)
}

#[test]
fn copies_of_other_node_tests(rt: HostRuntime) -> Result<(), Fail> {
    let alloc = rt.alloc();
    copies(&rt, alloc, NodeTest::AnyPi)?;
    copies(&rt, alloc, NodeTest::Pi(Text::of(alloc, "t")?))?;
    copies(&rt, alloc, NodeTest::AttrName(expanded(alloc)?))?;
    copies(&rt, alloc, NodeTest::AttrPrefix(bound(alloc)?))?;
    copies(&rt, alloc, NodeTest::AnyAttr)
}

/// A type that reaches itself through `List` and through `Boxed`.
#[derive(Debug, Drop)]
enum Tree {
    Leaf(Text),
    Twin(Boxed<Tree>),
    Branch(List<Tree>),
}

#[test]
fn texts(rt: HostRuntime) -> Result<(), Fail> {
    let alloc = rt.alloc();
    let mut text = Text::new(alloc);
    assert!(rt; text.is_empty());
    text.push('é')?;
    text.push_str("tage")?;
    assert_eq!(rt; text.as_str(), "étage");
    assert!(rt; text.same(&Text::from_string(String::from_str(alloc, "étage")?)));
    assert_eq!(rt; text.copy(alloc)?.into_string().as_str(), "étage");
    Ok(())
}

#[test]
fn texts_made_of_spare_ones(rt: HostRuntime) -> Result<(), Fail> {
    let alloc = rt.alloc();
    let mut spare = Spare::new(alloc);
    // The first has too little room to be kept, and the long one too much.
    spare.keep(Text::of(alloc, "a")?);
    let long = "étage ".repeat(alloc, 100)?;
    for text in ["", "étage", long.as_str(), "rez", ""] {
        let made = spare.text(text)?;
        assert_eq!(rt; made.as_str(), text);
        spare.keep(made);
    }
    // More than are kept.
    for _ in 0..70 {
        spare.keep_name(expanded(alloc)?);
    }
    assert_eq!(rt; spare.text("cave")?.as_str(), "cave");
    Ok(())
}

#[test]
fn lists_made_of_spare_ones(rt: HostRuntime) -> Result<(), Fail> {
    let alloc = rt.alloc();
    let mut spare = Spare::new(alloc);
    for count in [0, 1, 3, 70, 2] {
        let mut attrs = spare.attrs();
        assert!(rt; attrs.is_empty());
        for _ in 0..count {
            let value = spare.text("v")?;
            attrs.push(Attr {
                name: expanded(alloc)?,
                value,
            })?;
        }
        spare.keep_attrs(attrs);
    }
    assert!(rt; spare.attrs().is_empty());
    Ok(())
}

#[test]
fn trees(rt: HostRuntime) -> Result<(), Fail> {
    let alloc = rt.alloc();
    let mut list = List::new(alloc);
    list.push(Tree::Leaf(Text::of(alloc, "étage")?))?;
    list.push(Tree::Branch(List::new(alloc)))?;
    assert_eq!(rt; list.len(), 2);
    assert!(rt; matches!(list.get(1), Some(Tree::Branch(_))));
    let twin = Tree::Twin(Boxed::new(alloc, Tree::Branch(list))?);
    let shown = format!(in alloc; "{twin:?}")?;
    assert!(rt; shown.as_str().contains("étage"), "{shown:?}");
    Ok(())
}

#[test]
fn lists(rt: HostRuntime) -> Result<(), Fail> {
    let alloc = rt.alloc();
    let mut numbers = List::from_vec(vec![in alloc; 1, 2, 3]?);
    assert_eq!(rt; numbers.len(), 3);
    numbers.set(1, 7);
    numbers.truncate(2);
    assert_eq!(rt; numbers.as_slice(), [1, 7].as_slice());
    assert_eq!(rt; numbers.pop(), Some(7));
    assert!(rt; !numbers.is_empty());
    assert_eq!(rt; numbers.into_vec().as_slice(), [1].as_slice());
    Ok(())
}

#[test]
fn names_are_compared_without_their_prefix(rt: HostRuntime) -> Result<(), Fail> {
    let alloc = rt.alloc();
    let name = expanded(alloc)?;
    let mut other = expanded(alloc)?;
    other.prefix = Text::new(alloc);
    assert!(rt; name.same(&other));
    other.local = Text::new(alloc);
    assert!(rt; !name.same(&other));
    Ok(())
}
