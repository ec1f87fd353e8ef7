//! The order of words, and a matcher over bodies. What is expected follows from the definitions of words. Which words a
//! body has are the rows `words.rows` of `worked_rows`.
use cell_types::NoMemory;
use std::alloc::{AllocError, Global};
use std::process::Abort;
use std::test::Fail;
use volume_meaning::WordRule;
use word_reader::{Matcher, Term, words};

/// The words of a body with one space between, or nothing where memory is short.
fn spaced(alloc: Global, body: &[u8], rule: WordRule) -> Result<Vec<u8>, AllocError> {
    let mut all = Vec::new(alloc);
    let Ok(terms) = words(alloc, body, rule) else {
        return Ok(all);
    };
    for term in &terms {
        if !all.is_empty() {
            all.push(b' ')?;
        }
        all.extend_from_slice(term.bytes())?;
    }
    Ok(all)
}

#[test]
fn words_come_in_order_and_as_often_as_they_stand(rt: HostRuntime) -> Result<(), Fail> {
    let bodies: [(&[u8], &[u8]); 4] = [
        (b"hello hello", b"hello hello"),
        (b"@AZ[`az{/09:", b"az az 09"),
        (b"tax-free tax,", b"tax free tax"),
        (b"Hello, world! 9a", b"hello world 9a"),
    ];
    for rule in [WordRule::Ascii, WordRule::Folded] {
        for (body, want) in bodies {
            let all = spaced(rt.alloc(), body, rule)?;
            assert_eq!(rt; all.as_slice(), want);
        }
    }
    Ok(())
}

/// The matcher of the words of a query that stands in one text.
fn matcher_of(rt: &impl Abort, alloc: Global, query: &[u8], rule: WordRule) -> Matcher {
    let terms: Vec<Term> = words(alloc, query, rule).expect(rt, "there is memory");
    Matcher::new(alloc, &terms, rule).expect(rt, "there is memory")
}

/// Whether the terms are among the words of a body: its bytes are pushed one by one, or all at once.
fn matched(matcher: &mut Matcher, body: &[u8], one_by_one: bool) -> Result<bool, NoMemory> {
    matcher.clear();
    if one_by_one {
        for byte in body {
            matcher.push(*byte)?;
        }
    } else {
        matcher.push_all(body)?;
    }
    matcher.finish()
}

#[test]
fn a_matcher_reads_a_body_in_one_pass(rt: HostRuntime) {
    let bodies: [(&[u8], bool); 8] = [
        (b"hello world", true),
        (b"World; say HELLO", true),
        (b"hello hello", false),
        (b"hello worlds", false),
        (b"hell oworld", false),
        (b"hellohello world", false),
        (b"hhello hello wworld world", true),
        (b"", false),
    ];
    for rule in [WordRule::Ascii, WordRule::Folded] {
        let mut matcher = matcher_of(&rt, rt.alloc(), b"hello world hello", rule);
        for (body, want) in bodies {
            assert_eq!(rt; matched(&mut matcher, body, true), Ok(want));
            assert_eq!(rt; matched(&mut matcher, body, false), Ok(want));
        }
        let mut no_terms = matcher_of(&rt, rt.alloc(), b"", rule);
        assert_eq!(rt; no_terms.finish(), Ok(true));
    }
}

#[test]
fn a_term_that_was_found_hides_no_other(rt: HostRuntime) {
    // three terms that begin with the same letter
    let bodies: [(&[u8], bool); 7] = [
        (b"hat hello hot", true),
        (b"hello hat", false),
        (b"hot HAT h Hello", true),
        (b"hat hat hat", false),
        (b"hot hello shat", false),
        (b"Hot,hello;hat", true),
        (b"hello hello hot hat hat", true),
    ];
    for rule in [WordRule::Ascii, WordRule::Folded] {
        let mut matcher = matcher_of(&rt, rt.alloc(), b"hat hello hot", rule);
        for (body, want) in bodies {
            assert_eq!(rt; matched(&mut matcher, body, true), Ok(want));
            assert_eq!(rt; matched(&mut matcher, body, false), Ok(want));
        }
    }
}

#[test]
fn a_matcher_goes_by_its_rule(rt: HostRuntime) {
    // MÜLLER Straße
    let body = b"M\xc3\x9cLLER Stra\xc3\x9fe";
    // the words of a query, and whether they match the body by bytes and by characters
    let queries: [(&[u8], bool, bool); 4] = [
        // müller STRASSE
        (b"m\xc3\xbcller STRASSE", false, true),
        // müller
        (b"m\xc3\xbcller", false, true),
        // mÜller
        (b"m\xc3\x9cller", true, true),
        // stra
        (b"stra", false, false),
    ];
    for (query, by_bytes, by_characters) in queries {
        for (rule, want) in [
            (WordRule::Ascii, by_bytes),
            (WordRule::Folded, by_characters),
        ] {
            let mut matcher = matcher_of(&rt, rt.alloc(), query, rule);
            assert_eq!(rt; matched(&mut matcher, body, true), Ok(want));
            assert_eq!(rt; matched(&mut matcher, body, false), Ok(want));
        }
    }
}

#[test]
fn more_bytes_may_follow_an_answer(rt: HostRuntime) {
    // after each of these parts of `Straße 9`, whether `strasse` is among the words
    let parts: [(&[u8], bool); 4] = [
        (b"Stra\xc3", false),
        (b"\x9f", false),
        (b"e", true),
        (b" 9", true),
    ];
    let mut matcher = matcher_of(&rt, rt.alloc(), b"strasse", WordRule::Folded);
    for (part, want) in parts {
        assert_eq!(rt; matcher.push_all(part), Ok(()));
        assert_eq!(rt; matcher.finish(), Ok(want));
    }
}
