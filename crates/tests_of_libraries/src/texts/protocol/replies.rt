//! Frames of replies and pushes, among them those that nobody means well by.
use super::Frames;
use crate::rows::are_so;

/// Frames that are written again as they were read.
const KEPT: &str = r#"// what the server sends
replies {"id":6,"presence":{"presence":{"0-1-1":{"client":"0-1-1"}}}} => itself
replies {} => itself
replies {"connect":{"client":"0-1-1","ping":25,"pong":true,"version":"1.0.0"},"id":1} => itself
replies {"id":2,"subscribe":{"epoch":"aaaa","positioned":true,"recoverable":true}} => itself
replies {"id":3,"publish":{}} => itself
replies {"push":{"channel":"news","pub":{"data":{"t":1.50},"info":{"client":"0-1-1"},"offset":1}}} => itself
replies {"push":{"channel":"news","unsubscribe":{"code":2500,"reason":"insufficient state"}}} => itself
replies {"history":{"epoch":"aaaa","offset":1,"publications":[{"data":{"t":1.50},"info":{"client":"0-1-1"},"offset":1}]},"id":4} => itself
replies {"history":{"epoch":"aaaa","offset":1},"id":5} => itself
replies {"id":6,"presence":{"presence":{"0-1-1":{"client":"0-1-1"},"0-1-2":{"client":"0-1-2","user":"ann"}}}} => itself
replies {"id":6,"presence":{}} => itself
replies {"id":7,"presence_stats":{"num_clients":1,"num_users":1}} => itself
replies {"id":8,"ping":{}} => itself
replies {"id":9,"unsubscribe":{}} => itself
replies {"id":5,"subscribe":{"epoch":"aaaa","offset":3,"positioned":true,"publications":[{"data":2,"info":{"client":"0-1-1"},"offset":2},{"data":3,"info":{"client":"0-1-1"},"offset":3}],"recoverable":true,"recovered":true,"was_recovering":true}} => itself
replies {"error":{"code":107,"message":"bad request"},"id":2} => itself
replies {"error":{"code":100,"message":"internal server error","temporary":true},"id":8} => itself
replies {"error":{"code":4000},"id":8} => itself
replies {"id":5,"subscribe":{"epoch":"aaaa","offset":3,"positioned":true,"recoverable":true,"was_recovering":true}} => itself
replies {"error":{"code":102,"message":"unknown channel"},"id":3} => itself
replies {"error":{"code":105,"message":"already subscribed"},"id":6} => itself
replies {"error":{"code":108,"message":"not available"},"id":4} => itself
replies {"error":{"code":112,"message":"unrecoverable position"},"id":7} => itself
// numbers at their limits
replies {"id":4294967295,"ping":{}} => itself
replies {"error":{"code":1},"id":1} => itself
replies {"error":{"code":4294967295},"id":1} => itself
replies {"push":{"channel":"a","unsubscribe":{"code":1}}} => itself
replies {"push":{"channel":"a","unsubscribe":{"code":4294967295}}} => itself
replies {"push":{"channel":"a","pub":{"data":1,"offset":18446744073709551615}}} => itself
replies {"history":{"offset":18446744073709551615},"id":1} => itself
replies {"id":1,"presence_stats":{"num_clients":18446744073709551615,"num_users":18446744073709551615}} => itself
// lone surrogates in what is not read
replies {"push":{"channel":"a","pub":{"data":{"\ud800":"\udc00"}}}} => itself
// data nest up to 61 deep in a push, and 60 in a history
replies {"push":{"channel":"a","pub":{"data":*61*[**61*]*}}} => itself
replies {"history":{"publications":[{"data":*60*[**60*]*}]},"id":1} => itself
// long frames and texts
replies *32768*{}* => itself
replies *1500*{"push":{"channel":"a","pub":{"data":1}}}* => itself
replies {"id":2,"subscribe":{"epoch":"aaaa","offset":300,"positioned":true,"publications":[*299*{"data":{"t":1},"info":{"client":"0-1-1","user":"ann"},"offset":1},*{"data":1}],"recoverable":true,"recovered":true,"was_recovering":true}} => itself
replies {"push":{"channel":"*13000*news *","pub":{"data":1}}} => itself
replies {"push":{"pub":{"data":"*13000*news *"}}} => itself
replies {"id":6,"presence":{"presence":{*1000*"0-1-#":{"client":"0-1-#","user":"user#"},*"1":{"client":"1"}}}} => itself"#;

/// Frames, and what is written again of each.
const REWRITTEN: &str = r#"// several in a frame; a push of a kind that is not known is passed over
replies {"push":{"channel":"a","join":{}},"id":1}{} => {}
// null counts as absent
replies {"push":null,"id":1,"ping":{}} => {"id":1,"ping":{}}
replies {"id":1,"connect":{"client":null}} => {"connect":{"ping":25,"pong":true,"version":"1.0.0"},"id":1}
replies {"id":1,"subscribe":{"epoch":null,"offset":null,"publications":null,"recovered":null,"was_recovering":null}} => {"id":1,"subscribe":{"positioned":true,"recoverable":true}}
replies {"id":1,"presence":{"presence":null}} => {"id":1,"presence":{}}
replies {"id":1,"presence":{"presence":{"a":{"client":null,"user":null}}}} => {"id":1,"presence":{"presence":{"a":{"client":"a"}}}}
replies {"id":1,"presence":{"presence":{"a":null}}} => {"id":1,"presence":{}}
replies {"id":1,"presence":{"presence":{"a":{},"b":null,"c":{"user":"u"},"a":null}}} => {"id":1,"presence":{"presence":{"c":{"client":"c","user":"u"}}}}
replies {"id":1,"presence_stats":{"num_clients":null,"num_users":null}} => {"id":1,"presence_stats":{}}
replies {"history":{"publications":[{"data":null,"info":null,"offset":null}]},"id":1} => {"history":{"publications":[{"data":null}]},"id":1}
replies {"push":{"channel":null,"pub":{"data":null},"unsubscribe":null}} => {"push":{"pub":{"data":null}}}
replies {"push":{"channel":"a","pub":null,"unsubscribe":{"code":2500}}} => {"push":{"channel":"a","unsubscribe":{"code":2500,"reason":"insufficient state"}}}
replies {"push":{"channel":"a","pub":null,"unsubscribe":null}} => nothing
// what is passed over
replies {"push":{}} => nothing
replies {"push":{"channel":"a","join":{"info":{}}}}{} => {}
replies {"push":{"channel":"a","pub":{"data":1}},"id":"x","ping":7} => {"push":{"channel":"a","pub":{"data":1}}}
replies {"id":1,"subscribe":{"positioned":7,"recoverable":[],"x":{"\ud800":1}}} => {"id":1,"subscribe":{"positioned":true,"recoverable":true}}
replies {"history":{"epoch":"a-a","offset":1},"id":1} => {"history":{"offset":1},"id":1}
replies {"history":{"epoch":"abcdefghijabcdefghijabcdefghijabc"},"id":1} => {"history":{},"id":1}
replies {"error":{"code":5,"message":7,"temporary":{}},"id":1} => {"error":{"code":5},"id":1}
// keys that are escaped, and keys that are repeated
replies {"\u0069d":1,"p\u0069ng":{}} => {"id":1,"ping":{}}
replies {"p\u0075sh":{"ch\u0061nnel":"\u0061","p\u0075b":{"d\u0061ta":1}}} => {"push":{"channel":"a","pub":{"data":1}}}
replies {"id":0,"id":1,"ping":7,"p\u0069ng":{}} => {"id":1,"ping":{}}
replies {"id":1,"error":{"code":0,"code":5}} => {"error":{"code":5},"id":1}
replies {"id":1,"ping":{"\ud800":1},"ping":{}} => {"id":1,"ping":{}}
replies {"push":{"channel":"a","pub":{"data":1,"data":[ 2 ]}}} => {"push":{"channel":"a","pub":{"data":[2]}}}
replies {"id":1,"presence":{"presence":{"b":{"client":"c","user":"u"},"a":7,"a":{},"b":{"user":"v"}}}} => {"id":1,"presence":{"presence":{"a":{"client":"a"},"b":{"client":"b","user":"v"}}}}
// lone surrogates in what is not read
replies {"id":1,"ping":{"x":"\ud800"},"y":{"\ud800":1}} => {"id":1,"ping":{}}
replies {"id":1,"error":{"code":5,"message":"\ud800"}} => {"error":{"code":5},"id":1}
// an info without members
replies {"push":{"channel":"a","pub":{"data":1,"info":{}}}} => {"push":{"channel":"a","pub":{"data":1}}}
// one result: whatever unknown member stands beside it, another that is null, or the same before it
replies {"id":1,"error":{"code":5},"rpc":{}} => {"error":{"code":5},"id":1}
replies {"id":1,"error":{"code":5},"connect":null} => {"error":{"code":5},"id":1}
replies {"id":1,"error":{"code":5},"error":{"code":5}} => {"error":{"code":5},"id":1}
replies {"id":1,"connect":{},"rpc":{}} => {"connect":{"ping":25,"pong":true,"version":"1.0.0"},"id":1}
replies {"id":1,"connect":{},"subscribe":null} => {"connect":{"ping":25,"pong":true,"version":"1.0.0"},"id":1}
replies {"id":1,"connect":{},"connect":{}} => {"connect":{"ping":25,"pong":true,"version":"1.0.0"},"id":1}
replies {"id":1,"subscribe":{},"rpc":{}} => {"id":1,"subscribe":{"positioned":true,"recoverable":true}}
replies {"id":1,"subscribe":{},"unsubscribe":null} => {"id":1,"subscribe":{"positioned":true,"recoverable":true}}
replies {"id":1,"subscribe":{},"subscribe":{}} => {"id":1,"subscribe":{"positioned":true,"recoverable":true}}
replies {"id":1,"unsubscribe":{},"rpc":{}} => {"id":1,"unsubscribe":{}}
replies {"id":1,"unsubscribe":{},"publish":null} => {"id":1,"unsubscribe":{}}
replies {"id":1,"unsubscribe":{},"unsubscribe":{}} => {"id":1,"unsubscribe":{}}
replies {"id":1,"publish":{},"rpc":{}} => {"id":1,"publish":{}}
replies {"id":1,"publish":{},"presence":null} => {"id":1,"publish":{}}
replies {"id":1,"publish":{},"publish":{}} => {"id":1,"publish":{}}
replies {"id":1,"presence":{},"rpc":{}} => {"id":1,"presence":{}}
replies {"id":1,"presence":{},"presence_stats":null} => {"id":1,"presence":{}}
replies {"id":1,"presence":{},"presence":{}} => {"id":1,"presence":{}}
replies {"id":1,"presence_stats":{},"rpc":{}} => {"id":1,"presence_stats":{}}
replies {"id":1,"presence_stats":{},"history":null} => {"id":1,"presence_stats":{}}
replies {"id":1,"presence_stats":{},"presence_stats":{}} => {"id":1,"presence_stats":{}}
replies {"id":1,"history":{},"rpc":{}} => {"history":{},"id":1}
replies {"id":1,"history":{},"ping":null} => {"history":{},"id":1}
replies {"id":1,"history":{},"history":{}} => {"history":{},"id":1}
replies {"id":1,"ping":{},"rpc":{}} => {"id":1,"ping":{}}
replies {"id":1,"ping":{},"error":null} => {"id":1,"ping":{}}
replies {"id":1,"ping":{},"ping":{}} => {"id":1,"ping":{}}"#;

/// Frames that are unreadable.
const REFUSED: &str = r#"// no reply
replies {"push":null} => unreadable
replies {"push":{"channel":"a","pub":{"data":1},"unsubscribe":{"code":1}}} => unreadable
replies {"push":{"channel":"a","pub":{"offset":1}}} => unreadable
replies {"push":{"channel":"a","unsubscribe":{}}} => unreadable
replies {"id":0,"ping":{}} => unreadable
replies {"ping":{}} => unreadable
replies {"id":1,"ping":{},"publish":{}} => unreadable
replies {"id":1,"rpc":{}} => unreadable
replies {"id":1,"error":{"code":0}} => unreadable
replies {"id":1,"error":{}} => unreadable
replies [] => unreadable
// frames with one bad reply
replies   => unreadable
replies {} x => unreadable
replies {},{} => unreadable
replies null => unreadable
replies 1 => unreadable
replies "a" => unreadable
replies {}[] => unreadable
replies {}1{} => unreadable
replies {}{"id":0,"ping":{}}{} => unreadable
replies {"x":1} => unreadable
replies {"id":1,"ping":{} => unreadable
// numbers past their limits
replies {"id":4294967296,"ping":{}} => unreadable
replies {"id":-1,"ping":{}} => unreadable
replies {"id":1.0,"ping":{}} => unreadable
replies {"id":1e0,"ping":{}} => unreadable
replies {"id":"1","ping":{}} => unreadable
replies {"id":null,"ping":{}} => unreadable
replies {"error":{"code":0},"id":1} => unreadable
replies {"error":{"code":4294967296},"id":1} => unreadable
replies {"error":{"code":"107"},"id":1} => unreadable
replies {"error":{"code":null},"id":1} => unreadable
replies {"error":{"message":"bad request"},"id":1} => unreadable
replies {"push":{"channel":"a","unsubscribe":{"code":0}}} => unreadable
replies {"push":{"channel":"a","unsubscribe":{"code":4294967296}}} => unreadable
replies {"push":{"channel":"a","unsubscribe":{"code":null}}} => unreadable
replies {"push":{"channel":"a","pub":{"data":1,"offset":18446744073709551616}}} => unreadable
replies {"push":{"channel":"a","pub":{"data":1,"offset":-1}}} => unreadable
replies {"history":{"offset":18446744073709551616},"id":1} => unreadable
replies {"history":{"offset":0.5},"id":1} => unreadable
replies {"id":1,"presence_stats":{"num_clients":18446744073709551616}} => unreadable
replies {"id":1,"presence_stats":{"num_users":-1}} => unreadable
// null counts as absent
replies {"history":{"publications":[null]},"id":1} => unreadable
// members of another kind
replies {"id":1,"connect":{"client":1}} => unreadable
replies {"id":1,"subscribe":{"epoch":5}} => unreadable
replies {"id":1,"subscribe":{"offset":"1"}} => unreadable
replies {"id":1,"subscribe":{"recovered":1}} => unreadable
replies {"id":1,"subscribe":{"was_recovering":"true"}} => unreadable
replies {"id":1,"subscribe":{"publications":{}}} => unreadable
replies {"id":1,"history":{"publications":[[]]}} => unreadable
replies {"id":1,"history":{"publications":[{"data":1},{}]}} => unreadable
replies {"id":1,"history":{"publications":[{"data":1,"info":[]}]}} => unreadable
replies {"id":1,"history":{"publications":[{"data":1,"info":{"user":1}}]}} => unreadable
replies {"id":1,"presence":{"presence":[]}} => unreadable
replies {"id":1,"presence":{"presence":{"a":"b"}}} => unreadable
replies {"id":1,"presence":{"presence":{"a":{},"b":{"user":{}}}}} => unreadable
replies {"push":[]} => unreadable
replies {"push":"a"} => unreadable
replies {"push":true,"id":1,"ping":{}} => unreadable
replies {"push":{"channel":7,"join":{}}} => unreadable
replies {"push":{"channel":"a","pub":[]}} => unreadable
replies {"push":{"channel":"a","join":{},"pub":7}} => unreadable
replies {"push":{"channel":"a","pub":{}}} => unreadable
replies {"push":{"channel":"a","unsubscribe":2500}} => unreadable
// of a key that is repeated the last member counts
replies {"id":1,"id":0,"ping":{}} => unreadable
replies {"id":1,"ping":{},"ping":7} => unreadable
replies {"id":1,"ping":{},"ping":null} => unreadable
replies {"id":1,"error":{"code":5,"code":0}} => unreadable
replies {"id":1,"presence":{"presence":{"a":{},"a":7}}} => unreadable
replies {"push":{"channel":"a","pub":{"data":1}},"push":null} => unreadable
// lone surrogates in what is read
replies {"\ud800":1,"id":1,"ping":{}} => unreadable
replies {"\ud800":1,"push":{"channel":"a","pub":{"data":1}}} => unreadable
replies {"id":1,"ping":{"\udc00":1}} => unreadable
replies {"id":1,"error":{"code":5,"\ud800":1}} => unreadable
replies {"id":1,"connect":{"client":"\ud800"}} => unreadable
replies {"id":1,"subscribe":{"epoch":"\ud800"}} => unreadable
replies {"id":1,"history":{"publications":[{"data":1,"\ud800":1}]}} => unreadable
replies {"id":1,"history":{"publications":[{"data":1,"info":{"\ud800":1}}]}} => unreadable
replies {"id":1,"history":{"publications":[{"data":1,"info":{"user":"\udc00\ud800"}}]}} => unreadable
replies {"id":1,"presence":{"presence":{"\ud800":{}}}} => unreadable
replies {"id":1,"presence":{"presence":{"a":{"\ud800":1}}}} => unreadable
replies {"push":{"channel":"\ud800","pub":{"data":1}}} => unreadable
replies {"push":{"channel":"a","\ud800":1}} => unreadable
replies {"push":{"channel":"a","pub":{"data":1,"\ud800":1}}} => unreadable
replies {"push":{"channel":"a","unsubscribe":{"code":1,"\ud800":1}}} => unreadable
// two results, and none
replies {"id":1,"error":{"code":5},"connect":{}} => unreadable
replies {"id":1,"error":{"code":5},"error":null} => unreadable
replies {"id":1,"x":{},"error":1} => unreadable
replies {"id":1,"connect":{},"subscribe":{}} => unreadable
replies {"id":1,"connect":{},"connect":null} => unreadable
replies {"id":1,"x":{},"connect":"a"} => unreadable
replies {"id":1,"subscribe":{},"unsubscribe":{}} => unreadable
replies {"id":1,"subscribe":{},"subscribe":null} => unreadable
replies {"id":1,"x":{},"subscribe":true} => unreadable
replies {"id":1,"unsubscribe":{},"publish":{}} => unreadable
replies {"id":1,"unsubscribe":{},"unsubscribe":null} => unreadable
replies {"id":1,"x":{},"unsubscribe":[]} => unreadable
replies {"id":1,"publish":{},"presence":{}} => unreadable
replies {"id":1,"publish":{},"publish":null} => unreadable
replies {"id":1,"x":{},"publish":null} => unreadable
replies {"id":1,"presence":{},"presence_stats":{}} => unreadable
replies {"id":1,"presence":{},"presence":null} => unreadable
replies {"id":1,"x":{},"presence":1} => unreadable
replies {"id":1,"presence_stats":{},"history":{}} => unreadable
replies {"id":1,"presence_stats":{},"presence_stats":null} => unreadable
replies {"id":1,"x":{},"presence_stats":"a"} => unreadable
replies {"id":1,"history":{},"ping":{}} => unreadable
replies {"id":1,"history":{},"history":null} => unreadable
replies {"id":1,"x":{},"history":true} => unreadable
replies {"id":1,"ping":{},"error":{"code":5}} => unreadable
replies {"id":1,"ping":{},"ping":null} => unreadable
replies {"id":1,"x":{},"ping":[]} => unreadable
// data that nest too deep
replies {"push":{"channel":"a","pub":{"data":[[[[[[[[[[[[[[[[[[[[[[[[[[[[[[[[[[[[[[[[[[[[[[[[[[[[[[[[[[[[[[]]]]]]]]]]]]]]]]]]]]]]]]]]]]]]]]]]]]]]]]]]]]]]]]]]]]]]]]]]]]]]}}} => unreadable
replies {"history":{"publications":[{"data":[[[[[[[[[[[[[[[[[[[[[[[[[[[[[[[[[[[[[[[[[[[[[[[[[[[[[[[[[[[[[]]]]]]]]]]]]]]]]]]]]]]]]]]]]]]]]]]]]]]]]]]]]]]]]]]]]]]]]]]]]]}]},"id":1} => unreadable"#;

/// With white space, also alone.
const SPACED: &str = "\
replies  {}{ }\r␊\t{}  => {}{}{}
replies  => unreadable
replies   => unreadable";

#[test]
fn frames_of_replies(rt: HostRuntime) {
    let alloc = rt.alloc();
    are_so(&rt, alloc, "texts/protocol/replies kept", &mut Frames, KEPT);
    are_so(
        &rt,
        alloc,
        "texts/protocol/replies rewritten",
        &mut Frames,
        REWRITTEN,
    );
    are_so(
        &rt,
        alloc,
        "texts/protocol/replies spaced",
        &mut Frames,
        SPACED,
    );
    are_so(
        &rt,
        alloc,
        "texts/protocol/replies refused",
        &mut Frames,
        REFUSED,
    );
}
