// Calls that take memory and that the program does not make, each of which has to succeed; and the letters of base64, which no
// command tells from other letters.
use iam_context::{Context, Derived, KeyName, Part, Values};
use iam_options::{Options, Task, options_of};
use iam_services::Services;
use iam_text::{Draft, Glob, Piece, Sign, Text};
use iam_value::bytes;
use std::alloc::Global;
use std::test::Fail;

/// Whether a pattern is a given star, any one character, and any characters.
fn is_star_and_more(glob: &Glob) -> bool {
    let signs = glob.signs();
    signs.len() == 3
        && signs.at(0) == Sign::Given('*')
        && signs.at(1) == Sign::One
        && signs.at(2) == Sign::Any
        && glob.matches("*a")
        && glob.matches("*abc")
        && !glob.matches("*")
}

#[test]
fn the_signs_of_a_pattern_are_a_pattern(rt: HostRuntime) -> Result<(), Fail> {
    let glob = Glob::of(rt.alloc(), &[Sign::Given('*'), Sign::One, Sign::Any])?;
    assert!(rt; is_star_and_more(&glob));
    Ok(())
}

/// Whether the second of four pieces is a variable, and the third a star.
fn are_four(pieces: &[Piece]) -> bool {
    pieces.len() == 4
        && matches!(pieces[1], Piece::Variable(_, None))
        && matches!(pieces[2], Piece::Escaped('*'))
}

/// Whether a text is a draft of such pieces.
fn has_four(alloc: Global, text: &str) -> Result<bool, Fail> {
    let Some(draft) = Draft::read(alloc, text, true)? else {
        return Ok(false);
    };
    Ok(are_four(draft.pieces(alloc)?.as_slice()))
}

#[test]
fn a_draft_has_its_pieces(rt: HostRuntime) -> Result<(), Fail> {
    assert!(rt; has_four(rt.alloc(), "a${k}${*}?")?);
    assert!(rt; Draft::read(rt.alloc(), "a${k", true)?.is_none());
    Ok(())
}

#[test]
fn a_literal_draft_has_no_form(rt: HostRuntime) -> Result<(), Fail> {
    let draft = Draft::literal(rt.alloc(), "${*}", true)?;
    let stretches = draft.stretches();
    assert!(rt; stretches.first_form().is_none() && stretches.text() == "${*}");
    Ok(())
}

#[test]
fn a_part_is_joined(rt: HostRuntime) -> Result<(), Fail> {
    let alloc = rt.alloc();
    let mut given: Part = Vec::new(alloc);
    let value = Text::read(alloc, "a*")?;
    given.push((
        KeyName::given(Text::read(alloc, "Dept")?),
        Values::one(value),
    ))?;
    let derived: Derived = Vec::new(alloc);
    let context = Context::join(alloc, &[&given], &derived)?;
    assert_eq!(rt; context.values("dEPT").len(), 1);
    Ok(())
}

// Table 1 of RFC 4648: the letters of the values 0 to 63, so the bytes are the numbers 0 to 63 of 6 bits each. Before them a
// vector of its section 10.
#[test]
fn letters_of_base64(rt: HostRuntime) -> Result<(), Fail> {
    let numbers = [
        0x00, 0x10, 0x83, 0x10, 0x51, 0x87, 0x20, 0x92, 0x8b, 0x30, 0xd3, 0x8f, 0x41, 0x14, 0x93,
        0x51, 0x55, 0x97, 0x61, 0x96, 0x9b, 0x71, 0xd7, 0x9f, 0x82, 0x18, 0xa3, 0x92, 0x59, 0xa7,
        0xa2, 0x9a, 0xab, 0xb2, 0xdb, 0xaf, 0xc3, 0x1c, 0xb3, 0xd3, 0x5d, 0xb7, 0xe3, 0x9e, 0xbb,
        0xf3, 0xdf, 0xbf,
    ];
    let rows: [(&str, &[u8]); 4] = [
        ("", b""),
        ("aGk=", b"hi"),
        ("Zm9vYg==", b"foob"),
        (
            "ABCDEFGHIJKLMNOPQRSTUVWXYZabcdefghijklmnopqrstuvwxyz0123456789+/",
            &numbers,
        ),
    ];
    for (text, want) in rows {
        let found = bytes(rt.alloc(), text)?.ok_or("no bytes")?;
        assert_eq!(rt; found.as_slice(), want, "at {text}");
    }
    Ok(())
}

/// How many of three actions are tried with a pattern.
fn tried(alloc: Global, pattern: &str) -> Result<u64, Fail> {
    let mut services = Services::new(alloc)?;
    services.add(alloc, "S3:GetObject", 0)?;
    services.add(alloc, "sqs:Send", 1)?;
    services.add(alloc, "s3:PutObject", 2)?;
    Ok(services.tried(&Glob::read(alloc, pattern)?, 3).len())
}

#[test]
fn a_pattern_is_tried_on_the_actions_of_its_service(rt: HostRuntime) -> Result<(), Fail> {
    assert_eq!(rt; tried(rt.alloc(), "s3:*")?, 2);
    assert_eq!(rt; tried(rt.alloc(), "ec2:Get")?, 0);
    assert_eq!(rt; tried(rt.alloc(), "s*:Get")?, 3);
    Ok(())
}

#[test]
fn options_of_words_without_a_file(rt: HostRuntime) -> Result<(), Fail> {
    let first = Options {
        task: Task::First,
        workers: 4,
        tile: Some(9),
        json: false,
        brief: false,
    };
    let words = ["first", "--tile", "9"];
    assert_eq!(rt; options_of(rt.alloc(), &words).ok(), Some(first));
    assert!(rt; options_of(rt.alloc(), &["changes", "a"]).is_err());
    Ok(())
}
