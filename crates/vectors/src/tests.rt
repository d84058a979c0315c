//! The text of small articles, and sinks that fail.
ghost use Rattle.std.specs.Prelude.{IsOk};

use crate::trial;
use bridge_base::{Failed, MemSink, QuietSink};
use std::alloc::{AllocError, Global};
use std::test::Fail;

const BEGINNING: &str = "6 version \"bool\" typeOp nil opType 0 def pop \
\"->\" typeOp 0 ref 0 ref nil cons cons opType 1 def pop \
\"p\" 0 ref var varTerm 2 def refl 3 def pop \
\"x\" 0 ref var 4 def pop \
\"f\" const 1 ref constTerm 5 def pop ";

const FIRST: &str = "\"c1\" 4 ref 5 ref 4 ref varTerm appTerm absTerm 6 def defineConst \
3 ref appThm 6 ref 2 ref appTerm betaConv trans 7 def pop 1 ref constTerm 5 def pop ";

const SECOND: &str = "\"c2\" 4 ref 5 ref 4 ref varTerm appTerm absTerm 6 def defineConst \
3 ref appThm 6 ref 2 ref appTerm betaConv trans 7 ref trans 7 def pop 1 ref constTerm 5 def pop ";

const ENDING: &str =
    "7 ref nil \"=\" const \"->\" typeOp 0 ref 1 ref nil cons cons opType constTerm \
5 ref 2 ref appTerm appTerm \"f\" const 1 ref constTerm 2 ref appTerm appTerm thm ";

// The text in which each blank is the end of a line.
fn lines(alloc: Global, parts: &[&str]) -> Result<Vec<u8>, AllocError> {
    let mut text = Vec::new(alloc);
    for part in parts {
        for byte in part.as_bytes() {
            text.push(if *byte == b' ' { b'\n' } else { *byte })?;
        }
    }
    Ok(text)
}

// Drops the article: where no write fails, none is answered.
fn discard(n: u64) -> Result<(), Failed>
    ensures { IsOk result }
{
    trial(n, &mut QuietSink)
}

#[test]
fn articles_of_one_and_two_blocks(rt: HostRuntime) -> Result<(), Fail> {
    let alloc = rt.alloc();
    let mut one = MemSink::new(Vec::new(alloc), Vec::new(alloc));
    assert_eq!(rt; trial(1, &mut one), Ok(()));
    let expected = lines(alloc, &[BEGINNING, FIRST, ENDING])?;
    assert_eq!(rt; one.contents(), expected.as_slice());
    let mut two = MemSink::new(Vec::new(alloc), Vec::new(alloc));
    assert_eq!(rt; trial(2, &mut two), Ok(()));
    let expected = lines(alloc, &[BEGINNING, FIRST, SECOND, ENDING])?;
    assert_eq!(rt; two.contents(), expected.as_slice());
    assert_eq!(rt; discard(1_000), Ok(()));
    Ok(())
}

#[test]
fn a_failing_sink_holds_a_front(rt: HostRuntime) -> Result<(), Fail> {
    let alloc = rt.alloc();
    for failing in 1..9 {
        let mut sink = MemSink::new(Vec::new(alloc), vec![in alloc; failing]?);
        assert_eq!(rt;
            trial(1, &mut sink),
            if failing < 7 { Err(Failed) } else { Ok(()) }
        );
        assert_eq!(rt; sink.calls(), if failing < 7 { failing } else { 6 });
    }
    let mut sink = MemSink::new(Vec::new(alloc), vec![in alloc; 4]?);
    assert_eq!(rt; trial(12, &mut sink), Err(Failed));
    let expected = lines(alloc, &[BEGINNING, "\"c1"])?;
    assert_eq!(rt; sink.contents(), expected.as_slice());
    Ok(())
}
