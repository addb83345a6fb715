//! Texts by the rules of RFC 8259, sections 2 to 7, each with its answer by hand: values and frames, and texts that are none.
//!
//! `scan TEXT` gives the span of a text's one value, `FROM TO` in bytes, and `split_frame TEXT` those of a frame's values. A text
//! that is none is refused at the first byte at which what was read so far can't go on, or at the text's end.
use super::vectors::Calls;
use crate::rows::are_so;

const PLAIN: &str = r#"// values
scan "\"" => 0 4
scan "\\" => 0 4
scan "\/" => 0 4
scan "\b" => 0 4
scan "\f" => 0 4
scan "\n" => 0 4
scan "\r" => 0 4
scan "\t" => 0 4
scan "\u0041" => 0 8
scan "\u00e9" => 0 8
scan "\uABCD" => 0 8
scan "\uabcd" => 0 8
scan "\ud834\udd1e" => 0 14
scan "\ud834" => 0 8
scan "\udd1e\ud834" => 0 14
scan "" => 0 2
scan "a" => 0 3
scan "/" => 0 3
scan "[{]}:," => 0 8
scan 0 => 0 1
scan -0 => 0 2
scan 1 => 0 1
scan -1 => 0 2
scan 10 => 0 2
scan 123456789012345678901234567890 => 0 30
scan 0.0 => 0 3
scan 0.5 => 0 3
scan -0.5 => 0 4
scan 1.25 => 0 4
scan 1e0 => 0 3
scan 1E0 => 0 3
scan 1e+5 => 0 4
scan 1e-5 => 0 4
scan 1E+05 => 0 5
scan 1E-00 => 0 5
scan 0e0 => 0 3
scan -0.0e-0 => 0 7
scan 1.5e300 => 0 7
scan true => 0 4
scan false => 0 5
scan null => 0 4
scan [] => 0 2
scan {} => 0 2
scan [ ] => 0 3
scan [1] => 0 3
scan [1,2] => 0 5
scan [[]] => 0 4
scan [{}] => 0 4
scan {"a":1} => 0 7
scan { "a" : 1 } => 0 11
scan {"a":1,"b":2} => 0 13
scan {"a":1,"a":2} => 0 13
scan {"":null} => 0 9
scan {"a":{"b":[1,{"c":"d"}]}} => 0 25
scan [null,true,false,"x",-1.5e2,[],{}] => 0 34
// texts that are none
scan - => NotJson(1)
scan +1 => NotJson(0)
scan 01 => NotJson(1)
scan -01 => NotJson(2)
scan 00 => NotJson(1)
scan 1. => NotJson(2)
scan .5 => NotJson(0)
scan -.5 => NotJson(1)
scan 1.e5 => NotJson(2)
scan 1e => NotJson(2)
scan 1e+ => NotJson(3)
scan 1E- => NotJson(3)
scan 1e1.5 => NotJson(3)
scan 0x10 => NotJson(1)
scan 1_000 => NotJson(1)
scan --1 => NotJson(1)
scan 1-2 => NotJson(1)
scan 1 2 => NotJson(2)
scan Infinity => NotJson(0)
scan NaN => NotJson(0)
scan - 1 => NotJson(1)
scan 1.5.2 => NotJson(3)
scan 1a => NotJson(1)
scan nul => NotJson(3)
scan tru => NotJson(3)
scan fals => NotJson(4)
scan n => NotJson(1)
scan nulll => NotJson(4)
scan True => NotJson(0)
scan NULL => NotJson(0)
scan truefalse => NotJson(4)
scan 1true => NotJson(1)
scan " => NotJson(1)
scan "a => NotJson(2)
scan "\" => NotJson(3)
scan "\a" => NotJson(2)
scan "\x41" => NotJson(2)
scan "\u" => NotJson(3)
scan "\u1" => NotJson(4)
scan "\u12" => NotJson(5)
scan "\u123" => NotJson(6)
scan "\u123g" => NotJson(6)
scan "\U0041" => NotJson(2)
scan "\ => NotJson(2)
scan "\u00 => NotJson(5)
scan 'a' => NotJson(0)
scan "a""b" => NotJson(3)
scan a => NotJson(0)
scan [ => NotJson(1)
scan ] => NotJson(0)
scan [1 => NotJson(2)
scan [1, => NotJson(3)
scan [1,] => NotJson(3)
scan [,1] => NotJson(1)
scan [1 2] => NotJson(3)
scan [1,,2] => NotJson(3)
scan [1]] => NotJson(3)
scan [1;2] => NotJson(2)
scan ["a" => NotJson(4)
scan (1) => NotJson(0)
scan [1} => NotJson(2)
scan { => NotJson(1)
scan } => NotJson(0)
scan {"a" => NotJson(4)
scan {"a": => NotJson(5)
scan {"a":1 => NotJson(6)
scan {"a":1, => NotJson(7)
scan {"a":1,} => NotJson(7)
scan {,} => NotJson(1)
scan {a:1} => NotJson(1)
scan {1:1} => NotJson(1)
scan {"a" 1} => NotJson(5)
scan {"a":1 "b":2} => NotJson(7)
scan {"a"::1} => NotJson(5)
scan {"a":1,,"b":2} => NotJson(7)
scan {'a':1} => NotJson(1)
scan {"a":1] => NotJson(6)
scan {"a"} => NotJson(4)
scan [1] x => NotJson(4)
scan 1 // c => NotJson(2)
scan  => NotJson(0)
scan nulx => NotJson(3)
scan nul => NotJson(3)
scan falsy => NotJson(4)
scan nulll => NotJson(4)
scan - => NotJson(1)
scan -a => NotJson(1)
scan 01 => NotJson(1)
scan 1.x => NotJson(2)
scan 1e+ => NotJson(3)
scan 1e5. => NotJson(3)
scan 1 2 => NotJson(2)
scan {} x => NotJson(3)
scan [1]] => NotJson(3)
scan "\x" => NotJson(2)
scan "\u12g4" => NotJson(5)
scan "a => NotJson(2)
scan [1 ;2] => NotJson(3)
scan [,1] => NotJson(1)
scan [1,] => NotJson(3)
scan [1 => NotJson(2)
scan {a:1} => NotJson(1)
scan {"a" 1} => NotJson(5)
scan {"a":} => NotJson(5)
scan {"a":1,} => NotJson(7)
scan {"a":nil} => NotJson(6)
scan {"a":1] => NotJson(6)"#;

/// With white space, and characters that are none of it.
const SPACED: &str = "\
// values
scan \"\u{e9}\" => 0 4
scan \"\u{7f}\" => 0 3
scan \"\u{2028}\" => 0 5
scan {\t} => 0 3
scan [ 1␊,\r␊2 ] => 0 10
scan  1 => 1 2
scan \t1 => 1 2
scan ␊1 => 1 2
scan \r1 => 1 2
scan 1  => 0 1
scan 1␊ => 0 1
scan  \t\r␊1 \t\r␊ => 4 5
scan  {}  => 1 3
scan  -0.5e+10  => 1 9
// texts that are none
scan  => NotJson(0)
scan   => NotJson(1)
scan \t\r␊ => NotJson(3)
scan \u{feff}1 => NotJson(0)
scan \u{b}1 => NotJson(0)
scan \u{c}1 => NotJson(0)
scan \u{a0}1 => NotJson(0)
scan 1\u{c} => NotJson(1)
scan [1\u{c}] => NotJson(2)
scan \"\u{0}\" => NotJson(1)
scan \"\u{1f}\" => NotJson(1)
scan \"␊\" => NotJson(1)
scan \"\t\" => NotJson(1)
scan // c␊1 => NotJson(0)
scan   => NotJson(1)
scan \t␊ x => NotJson(3)
scan  trux => NotJson(4)
scan \"a␊b\" => NotJson(2)
// frames
split_frame 1 => 0 1
split_frame {} => 0 2
split_frame {}{} => 0 2, 2 4
split_frame {} {} => 0 2, 3 5
split_frame 1true => 0 1, 1 5
split_frame truefalse => 0 4, 4 9
split_frame \"a\"\"b\" => 0 3, 3 6
split_frame 1 2 => 0 1, 2 3
split_frame []1 => 0 2, 2 3
split_frame 1[] => 0 1, 1 3
split_frame null1 => 0 4, 4 5
split_frame \"a\"1 => 0 3, 3 4
split_frame 1\"a\" => 0 1, 1 4
split_frame 1{}2 => 0 1, 1 3, 3 4
split_frame nullnull => 0 4, 4 8
split_frame {}␊{}␊ => 0 2, 3 5
split_frame  {}{}  => 1 3, 3 5
split_frame 1␊-2 => 0 1, 2 4
split_frame 0 1.5e2\r-3\ttrue => 0 1, 2 7, 8 10, 11 15
// texts that are none
split_frame 1-2 => NotJson(1)
split_frame 01 => NotJson(1)
split_frame -0-1 => NotJson(2)
split_frame 1.5.2 => NotJson(3)
split_frame 00 => NotJson(1)
split_frame 1e5-1 => NotJson(3)
split_frame {},{} => NotJson(2)
split_frame {}] => NotJson(2)
split_frame {}x => NotJson(2)
split_frame 1 01 => NotJson(3)
split_frame [1][2 => NotJson(5)
split_frame true1- => NotJson(5)
split_frame  => NotJson(0)
split_frame   => NotJson(1)
split_frame ␊ => NotJson(1)
split_frame {}\u{c}{} => NotJson(2)
split_frame \u{feff}{} => NotJson(0)
split_frame {}x => NotJson(2)
split_frame 1-2 => NotJson(1)
split_frame 1 01 => NotJson(3)
split_frame 1nul => NotJson(4)
split_frame {},{} => NotJson(2)";

/// Each text of a value or a frame, and each that is none.
#[test]
fn values_and_frames(rt: HostRuntime) {
    are_so(
        &rt,
        rt.alloc(),
        "texts/json/grammar plain",
        &mut Calls,
        PLAIN,
    );
    are_so(
        &rt,
        rt.alloc(),
        "texts/json/grammar spaced",
        &mut Calls,
        SPACED,
    );
}
