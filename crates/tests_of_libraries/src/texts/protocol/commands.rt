//! Frames of commands, among them those that nobody means well by.
use super::Frames;
use crate::rows::are_so;

/// Frames that are written again as they were read.
const KEPT: &str = r#"// what clients send
commands {"connect":{},"id":1} => itself
commands {"connect":{"token":"t9"},"id":1} => itself
commands {"id":2,"subscribe":{"channel":"news","epoch":"aaaa","offset":2,"recover":true}} => itself
commands {"id":2,"subscribe":{"channel":"news","recover":true}} => itself
commands {"id":3,"publish":{"channel":"news","data":{"t":1.50}}} => itself
commands {"id":3,"publish":{"channel":"news","data":null}} => itself
commands {"id":3,"publish":{"channel":"news"}} => itself
commands {"history":{"channel":"news","limit":-1},"id":4} => itself
commands {"history":{"channel":"a","limit":-2147483648,"reverse":true,"since":{"epoch":"zzzz","offset":18446744073709551615}},"id":7} => itself
commands {"id":6,"presence":{"channel":"news"}} => itself
commands {"id":7,"presence_stats":{"channel":"news"}} => itself
commands {"id":9,"unsubscribe":{"channel":"a\"b"}} => itself
commands {"id":4294967295,"ping":{}} => itself
commands {"id":4,"rpc":{}} => itself
commands {"send":{}} => itself
commands {} => itself
commands {"id":2,"subscribe":{"channel":"news"}} => itself
commands {"id":3,"subscribe":{"channel":"chat:x"}} => itself
commands {"id":5,"subscribe":{"channel":"a"}} => itself
commands {"id":8,"subscribe":{"channel":"b"}} => itself
commands {"id":9,"unsubscribe":{"channel":"news"}} => itself
// publishes under a key, which stands behind the data; a long one is no matter of its text
commands {"id":3,"publish":{"channel":"news","data":1,"key":"k"}} => itself
commands {"id":3,"publish":{"channel":"news","data":{"key":"x"},"key":"a\"b"}} => itself
commands {"id":3,"publish":{"channel":"news","key":"k"}} => itself
commands {"id":3,"publish":{"data":null,"key":" "}} => itself
commands {"id":3,"publish":{"channel":"news","data":1,"key":"kkkkkkkkkkkkkkkkkkkkkkkkkkkkkkkkkkkkkkkkkkkkkkkkkkkkkkkkkkkkkkkk"}} => itself
commands {"id":3,"publish":{"channel":"news","data":1,"key":"kkkkkkkkkkkkkkkkkkkkkkkkkkkkkkkkkkkkkkkkkkkkkkkkkkkkkkkkkkkkkkkkk"}} => itself
// numbers at their limits; an epoch has at most 32 letters or digits
commands {"id":1,"ping":{}} => itself
commands {"id":7,"send":{}} => itself
commands {"id":1,"subscribe":{"channel":"a","offset":18446744073709551615,"recover":true}} => itself
commands {"id":1,"subscribe":{"channel":"a","epoch":"abcdefghijabcdefghijabcdefghijab","recover":true}} => itself
// null counts as absent
commands {"id":1,"publish":{"channel":"a","data":null}} => itself
// lone surrogates in what is not read
commands {"id":1,"publish":{"channel":"a","data":{"\ud800":"\udc00"}}} => itself
// data nest up to 60 deep
commands {"id":1,"publish":{"channel":"a","data":[]}} => itself
commands {"id":1,"publish":{"channel":"a","data":*59*[**59*]*}} => itself
commands {"id":1,"publish":{"channel":"a","data":*60*[**60*]*}} => itself
// long frames and texts
commands *32768*{}* => itself
commands *1300*{"id":7,"publish":{"channel":"news","data":[1]}}* => itself
commands {"connect":{"token":"*13000*news *"},"id":1} => itself
commands {"id":1,"subscribe":{"channel":"*13000*news *"}} => itself
commands {"id":1,"publish":{"data":"*13000*news *"}} => itself"#;

/// Frames, and what is written again of each.
const REWRITTEN: &str = r#"// what clients send, with keys and white space as they like
commands {"id":1,"connect":{}} => {"connect":{},"id":1}
commands {"id":9,"connect":{}} => {"connect":{},"id":9}
commands {"id":1,"connect":{"token":"t9"}} => {"connect":{"token":"t9"},"id":1}
commands {"id":3,"publish":{"channel":"news","data":{ "t" : 1.50 }}} => {"id":3,"publish":{"channel":"news","data":{"t":1.50}}}
commands {"id":4,"history":{"channel":"news","limit":-1}} => {"history":{"channel":"news","limit":-1},"id":4}
commands {"id":5,"history":{"channel":"news"}} => {"history":{"channel":"news"},"id":5}
commands {"id":7,"history":{"channel":"a","since":{"epoch":"zzzz","offset":0}}} => {"history":{"channel":"a","since":{"epoch":"zzzz"}},"id":7}
commands {"id":2,"publish":{"channel":"","data":1}} => {"id":2,"publish":{"data":1}}
commands {"id":8,"ping":{}} {} => {"id":8,"ping":{}}{}
// publishes under a key; absent, null and empty are none
commands {"id":3,"publish":{"key":"k","data":1,"channel":"news"}} => {"id":3,"publish":{"channel":"news","data":1,"key":"k"}}
commands {"id":3,"publish":{"channel":"news","data":1,"key":null}} => {"id":3,"publish":{"channel":"news","data":1}}
commands {"id":3,"publish":{"channel":"news","data":1,"key":""}} => {"id":3,"publish":{"channel":"news","data":1}}
commands {"id":3,"publish":{"channel":"news","data":1,"k\u0065y":"\u006b\/"}} => {"id":3,"publish":{"channel":"news","data":1,"key":"k/"}}
commands {"id":3,"key":"x","publish":{"channel":"news","data":1}} => {"id":3,"publish":{"channel":"news","data":1}}
commands {"id":3,"unsubscribe":{"channel":"news","key":1}} => {"id":3,"unsubscribe":{"channel":"news"}}
// what is not served, passed over, escaped, or left out when it is written again
commands {"id":1,"ping":{},"rpc":null,"x":7} => {"id":1,"ping":{}}
commands {"id":5,"refresh":7} => {"id":5,"rpc":{}}
commands {"id":5,"sub_refresh":[]} => {"id":5,"rpc":{}}
commands {"send":{"data":1}} => {"send":{}}
commands {"id":3,"publish":{"data":{ "t" : 1.50 },"channel":"\u006eews"}} => {"id":3,"publish":{"channel":"news","data":{"t":1.50}}}
commands {"id":2,"subscribe":{"channel":"a","epoch":"aaaa","offset":7}} => {"id":2,"subscribe":{"channel":"a"}}
commands {"id":2,"subscribe":{"channel":"a","epoch":"a-a","offset":7,"recover":true}} => {"id":2,"subscribe":{"channel":"a","offset":7,"recover":true}}
commands {"i\u0064":5,"ping":{}} => {"id":5,"ping":{}}
commands {"id":1,"id":5,"ping":{}} => {"id":5,"ping":{}}
commands {"id":1,"connect":{"token":null}} => {"connect":{},"id":1}
commands {"id":1,"history":{"channel":"a","since":null}} => {"history":{"channel":"a"},"id":1}
// numbers at their limits; an epoch has at most 32 letters or digits
commands {"id":0,"send":{}} => {"send":{}}
commands {"id":1,"history":{"channel":"a","limit":2147483647}} => {"history":{"channel":"a","limit":2147483647},"id":1}
commands {"id":1,"history":{"channel":"a","limit":-2147483648}} => {"history":{"channel":"a","limit":-2147483648},"id":1}
commands {"id":1,"history":{"channel":"a","limit":-0}} => {"history":{"channel":"a"},"id":1}
commands {"id":1,"subscribe":{"channel":"a","epoch":"abcdefghijabcdefghijabcdefghijabc","recover":true}} => {"id":1,"subscribe":{"channel":"a","recover":true}}
// null counts as absent
commands {"id":null,"send":{}} => {"send":{}}
commands {"connect":null,"id":1,"ping":{},"rpc":null} => {"id":1,"ping":{}}
commands {"id":1,"subscribe":{"channel":"a","epoch":null,"offset":null,"recover":null}} => {"id":1,"subscribe":{"channel":"a"}}
commands {"id":1,"subscribe":{"channel":"a","epoch":null,"offset":null,"recover":true}} => {"id":1,"subscribe":{"channel":"a","recover":true}}
// keys that are escaped, and keys that are repeated
commands {"\u0069d":5,"p\u0069ng":{}} => {"id":5,"ping":{}}
commands {"id":"x","id":5,"ping":{}} => {"id":5,"ping":{}}
commands {"id":4294967296,"id":5,"ping":{}} => {"id":5,"ping":{}}
commands {"ping":7,"id":5,"p\u0069ng":{}} => {"id":5,"ping":{}}
commands {"id":5,"rpc":{},"ping":{},"rpc":null} => {"id":5,"ping":{}}
commands {"id":1,"unsubscribe":{"channel":"\ud800","channel":"a"}} => {"id":1,"unsubscribe":{"channel":"a"}}
commands {"id":1,"unsubscribe":{"ch\u0061nnel":"\u0061\/"}} => {"id":1,"unsubscribe":{"channel":"a/"}}
commands {"id":1,"publish":{"channel":"a","key":"k","data":1,"key":"l"}} => {"id":1,"publish":{"channel":"a","data":1,"key":"l"}}
commands {"id":1,"publish":{"channel":"a","key":"k","data":1,"k\u0065y":null}} => {"id":1,"publish":{"channel":"a","data":1}}
commands {"id":1,"publish":{"channel":"a","key":7,"data":1,"key":"k"}} => {"id":1,"publish":{"channel":"a","data":1,"key":"k"}}
// lone surrogates in what is not read
commands {"id":1,"unsubscribe":{"channel":"\ud83d\ude00"}} => {"id":1,"unsubscribe":{"channel":"😀"}}
commands {"id":1,"ping":{},"x":"\ud800"} => {"id":1,"ping":{}}
commands {"id":1,"ping":{"x":"\ud800"}} => {"id":1,"ping":{}}
commands {"id":1,"ping":{},"x":{"\ud800":1}} => {"id":1,"ping":{}}
commands {"id":1,"rpc":{"\ud800":1}} => {"id":1,"rpc":{}}
// a ping, a send, and what is not served have any value but null
commands {"id":1,"ping":[]} => {"id":1,"ping":{}}
commands {"id":1,"ping":1} => {"id":1,"ping":{}}
commands {"id":1,"ping":true} => {"id":1,"ping":{}}
commands {"id":1,"ping":""} => {"id":1,"ping":{}}
commands {"id":1,"send":[]} => {"id":1,"send":{}}
commands {"id":1,"ping":{"\udfff":1}} => {"id":1,"ping":{}}
commands {"send":{"\ud800":1}} => {"send":{}}
commands {"id":5,"ping":{},"ping":7} => {"id":5,"ping":{}}
commands {"send":1} => {"send":{}}
commands {"id":1,"ping":null,"send":"x"} => {"id":1,"send":{}}
commands {"id":1,"history":{"channel":null,"limit":null,"reverse":null,"since":{"epoch":null,"offset":null}}} => {"history":{},"id":1}"#;

/// `frames_of_commands`: with white space, and of several commands; the last ones are none.
const SPACED: &str = "\
commands {}{} => itself
commands \r␊{\"id\":1,\"ping\":{}}{}\t{\"send\":{}}  => {\"id\":1,\"ping\":{}}{}{\"send\":{}}
commands { \"id\":␊1,\"ping\":{} }␊{} => {\"id\":1,\"ping\":{}}{}
commands  => unreadable
commands {} x => unreadable
commands   => unreadable
commands  ␊\t => unreadable
commands \u{feff}{} => unreadable
commands {\"id\":1,\"connect\":{\"token\":\"␊\"}} => unreadable";

/// Frames that are unreadable.
const REFUSED: &str = r#"// each_proper_prefix of a connect, the empty one too
commands  => unreadable
commands { => unreadable
commands {" => unreadable
commands {"i => unreadable
commands {"id => unreadable
commands {"id" => unreadable
commands {"id": => unreadable
commands {"id":1 => unreadable
commands {"id":1, => unreadable
commands {"id":1," => unreadable
commands {"id":1,"c => unreadable
commands {"id":1,"co => unreadable
commands {"id":1,"con => unreadable
commands {"id":1,"conn => unreadable
commands {"id":1,"conne => unreadable
commands {"id":1,"connec => unreadable
commands {"id":1,"connect => unreadable
commands {"id":1,"connect" => unreadable
commands {"id":1,"connect": => unreadable
commands {"id":1,"connect":{ => unreadable
commands {"id":1,"connect":{} => unreadable
// no frame
commands {} x => unreadable
commands [] => unreadable
commands 1 => unreadable
commands {}1 => unreadable
commands "a" => unreadable
// no command
commands {"id":4294967296,"ping":{}} => unreadable
commands {"id":1,"ping":{},"rpc":{}} => unreadable
commands {"id":1,"ping":{},"send":{}} => unreadable
commands {"id":1} => unreadable
commands {"id":0,"connect":{}} => unreadable
commands {"connect":{}} => unreadable
commands {"id":-1,"ping":{}} => unreadable
commands {"id":1.0,"ping":{}} => unreadable
commands {"id":1e0,"ping":{}} => unreadable
commands {"id":"1","ping":{}} => unreadable
commands {"id":null} => unreadable
commands {"ping":null} => unreadable
commands {"id":1,"connect":{"token":1}} => unreadable
commands {"id":1,"subscribe":{"channel":"a","recover":1}} => unreadable
commands {"id":1,"subscribe":{"channel":"a","epoch":5}} => unreadable
commands {"id":1,"subscribe":{"channel":"a","offset":-1}} => unreadable
commands {"id":1,"subscribe":{"channel":"a","offset":18446744073709551616}} => unreadable
commands {"id":1,"subscribe":{"channel":"\ud800"}} => unreadable
commands {"id":1,"subscribe":{"\ud800":1}} => unreadable
commands {"id":1,"history":{"channel":"a","limit":2147483648}} => unreadable
commands {"id":1,"history":{"channel":"a","limit":-2147483649}} => unreadable
commands {"id":1,"history":{"channel":"a","since":1}} => unreadable
commands {"\ud800":1,"id":1,"ping":{}} => unreadable
commands {"id":1, => unreadable
// numbers past their limits
commands {"id":18446744073709551616,"ping":{}} => unreadable
commands {"id":0,"ping":{}} => unreadable
commands {"id":-0,"ping":{}} => unreadable
commands {"id":01,"ping":{}} => unreadable
commands {"id":+1,"ping":{}} => unreadable
commands {"id":1E0,"ping":{}} => unreadable
commands {"id":4294967296,"send":{}} => unreadable
commands {"id":1,"history":{"channel":"a","limit":9223372036854775808}} => unreadable
commands {"id":1,"history":{"channel":"a","since":{"offset":18446744073709551616}}} => unreadable
commands {"id":1,"history":{"channel":"a","since":{"offset":-0}}} => unreadable
commands {"id":1,"subscribe":{"channel":"a","offset":18446744073709551616,"recover":true}} => unreadable
// members of another kind
commands {"id":true,"ping":{}} => unreadable
commands {"id":[],"ping":{}} => unreadable
commands {"id":{},"ping":{}} => unreadable
commands {"id":1,"connect":1} => unreadable
commands {"id":1,"connect":{"token":{}}} => unreadable
commands {"id":1,"connect":{"token":false}} => unreadable
commands {"id":1,"subscribe":"a"} => unreadable
commands {"id":1,"subscribe":{"channel":[]}} => unreadable
commands {"id":1,"subscribe":{"channel":"a","recover":"true"}} => unreadable
commands {"id":1,"subscribe":{"channel":"a","epoch":{}}} => unreadable
commands {"id":1,"subscribe":{"channel":"a","offset":"1"}} => unreadable
commands {"id":1,"subscribe":{"channel":"a","offset":1.0}} => unreadable
commands {"id":1,"unsubscribe":{"channel":1}} => unreadable
commands {"id":1,"publish":{"channel":true,"data":1}} => unreadable
commands {"id":1,"publish":[1]} => unreadable
commands {"id":1,"publish":{"channel":"a","data":1,"key":1}} => unreadable
commands {"id":1,"publish":{"channel":"a","data":1,"key":0}} => unreadable
commands {"id":1,"publish":{"channel":"a","data":1,"key":false}} => unreadable
commands {"id":1,"publish":{"channel":"a","data":1,"key":["k"]}} => unreadable
commands {"id":1,"publish":{"channel":"a","data":1,"key":{}}} => unreadable
commands {"id":1,"presence":{"channel":{}}} => unreadable
commands {"id":1,"presence_stats":{"channel":0}} => unreadable
commands {"id":1,"history":{"channel":7}} => unreadable
commands {"id":1,"history":{"channel":"a","limit":"1"}} => unreadable
commands {"id":1,"history":{"channel":"a","limit":1.0}} => unreadable
commands {"id":1,"history":{"channel":"a","reverse":0}} => unreadable
commands {"id":1,"history":{"channel":"a","since":[]}} => unreadable
commands {"id":1,"history":{"channel":"a","since":{"epoch":1}}} => unreadable
commands {"id":1,"history":{"channel":"a","since":{"offset":true}}} => unreadable
commands {"id":1,"PING":{}} => unreadable
// null counts as absent
commands null => unreadable
commands {"id":null,"ping":{}} => unreadable
commands {"id":1,"ping":null} => unreadable
commands {"id":1,"rpc":null} => unreadable
commands {"id":1,"x":null} => unreadable
// of a key that is repeated the last member counts
commands {"id":5,"id":0,"ping":{}} => unreadable
commands {"id":5,"id":null,"ping":{}} => unreadable
commands {"id":5,"ping":{},"ping":null} => unreadable
commands {"id":5,"ping":{},"rpc":null,"rpc":{}} => unreadable
commands {"id":1,"unsubscribe":{"channel":"a","channel":1}} => unreadable
commands {"id":1,"publish":{"channel":"a","data":1,"key":"k","key":1}} => unreadable
// lone surrogates in what is read
commands {"id":1,"ping":{},"\ud800":1} => unreadable
commands {"id":1,"connect":{"token":"\ud800"}} => unreadable
commands {"id":1,"subscribe":{"channel":"\udc00\ud800"}} => unreadable
commands {"id":1,"subscribe":{"channel":"a","epoch":"\ud800"}} => unreadable
commands {"id":1,"publish":{"channel":"a","\ud800":1}} => unreadable
commands {"id":1,"publish":{"channel":"a","data":1,"key":"\ud800"}} => unreadable
commands {"id":1,"history":{"channel":"a","since":{"\ud800":1}}} => unreadable
commands {"id":1,"history":{"channel":"a","since":{"epoch":"\ud83dx"}}} => unreadable
// frames with one bad command
commands {"id":1,"ping":{}}{"id":2}{} => unreadable
commands {"id":2}{"id":1,"ping":{}} => unreadable
commands {}{}{"id":1} => unreadable
commands {"id":1,"ping":{}}[] => unreadable
commands {"id":1,"ping":{}},{} => unreadable
commands {"id":1,"ping":{}}{ => unreadable
commands {"id":1,"ping":{}}} => unreadable
commands [{"id":1,"ping":{}}] => unreadable
commands {} null => unreadable
commands {}1 2 => unreadable
commands {}12-3 => unreadable
commands {"id":1,"connect":{"token":'a'}} => unreadable
commands {"id":1,"connect":{},} => unreadable
commands {id:1,"connect":{}} => unreadable
commands { => unreadable
commands {"id => unreadable
commands {"id":1,"conn => unreadable
commands {"id":1,"connect":{ => unreadable
commands {"id":1,"connect":{} => unreadable
// data that nest too deep for a frame
commands {"id":1,"publish":{"channel":"a","data":[[[[[[[[[[[[[[[[[[[[[[[[[[[[[[[[[[[[[[[[[[[[[[[[[[[[[[[[[[[[[[[]]]]]]]]]]]]]]]]]]]]]]]]]]]]]]]]]]]]]]]]]]]]]]]]]]]]]]]]]]]]]]]}} => unreadable
commands {"id":1,"publish":{"channel":"a","data":[[[[[[[[[[[[[[[[[[[[[[[[[[[[[[[[[[[[[[[[[[[[[[[[[[[[[[[[[[[[[[[[]]]]]]]]]]]]]]]]]]]]]]]]]]]]]]]]]]]]]]]]]]]]]]]]]]]]]]]]]]]]]]]]}} => unreadable
commands {"id":1,"publish":{"channel":"a","data":[[[[[[[[[[[[[[[[[[[[[[[[[[[[[[[[[[[[[[[[[[[[[[[[[[[[[[[[[[[[[[[[[]]]]]]]]]]]]]]]]]]]]]]]]]]]]]]]]]]]]]]]]]]]]]]]]]]]]]]]]]]]]]]]]]}} => unreadable"#;

#[test]
fn frames_of_commands(rt: HostRuntime) {
    let alloc = rt.alloc();
    are_so(
        &rt,
        alloc,
        "texts/protocol/commands kept",
        &mut Frames,
        KEPT,
    );
    are_so(
        &rt,
        alloc,
        "texts/protocol/commands rewritten",
        &mut Frames,
        REWRITTEN,
    );
    are_so(
        &rt,
        alloc,
        "texts/protocol/commands spaced",
        &mut Frames,
        SPACED,
    );
    are_so(
        &rt,
        alloc,
        "texts/protocol/commands refused",
        &mut Frames,
        REFUSED,
    );
}
