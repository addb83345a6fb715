//! Calls by their names: settings of a node and pushes from lent parts, at their largest sizes; and what is said of faults.
use crate::publications::publication;
use crate::rows::{Subject, Told, are_so, call_of};
use cf_protocol::{
    Epoch, ReadFault, read_namespaces, read_tokens, write_publication, write_unsubscribe,
};
use std::alloc::Global;

/// Tells which user of a text that sets up tokens has this one.
fn tell_user(told: &mut Told, alloc: Global, token: &str, text: &str) {
    match read_tokens(alloc, text) {
        Ok(tokens) => told.tell(format_args!("{:?}", tokens.user(token))),
        Err(fault) => told.tell(fault),
    }
}

/// Tells which settings of a channel a copy of what a text sets up has.
fn tell_settings(told: &mut Told, alloc: Global, channel: &str, text: &str) {
    let namespaces = match read_namespaces(alloc, text) {
        Ok(namespaces) => namespaces.copied(),
        Err(fault) => return told.tell(fault),
    };
    match namespaces {
        Ok(namespaces) => told.tell(format_args!("{:?}", namespaces.find(channel))),
        Err(_) => told.lack(),
    }
}

/// Tells the push of a publication of ann with these data, written from parts that are lent.
fn tell_lent(told: &mut Told, alloc: Global, body: &str) {
    match publication(alloc, 7, body) {
        Some(publication) => told.answer(write_publication(alloc, "news", &publication)),
        None => told.lack(),
    }
}

/// Tells the push that ends a subscription.
fn tell_end(told: &mut Told, alloc: Global, code: &str, channel: &str) {
    let code = told.number(code);
    told.answer(write_unsubscribe(alloc, channel, code));
}

/// Calls by their names.
#[derive(Drop)]
struct ByName;

impl Subject for ByName {
    fn play(&mut self, alloc: Global, done: &str, told: &mut Told) {
        let (name, passed) = call_of(done);
        let (first, second) = call_of(passed);
        match name {
            "find" => tell_settings(told, alloc, first, second),
            "user" => tell_user(told, alloc, first, second),
            "lent" => tell_lent(told, alloc, passed),
            "unsubscribe" => tell_end(told, alloc, first, second),
            "epoch" => told.tell(Epoch::from_text(passed)),
            "memory" => told.tell(ReadFault::Memory),
            _ => told.tell("no call"),
        }
    }
}

const ROWS: &str =
    r#"find news =100,300,phs;chat=10000,2592000,;a-_9=1,1,sp => Some(Settings { size: 100, seconds: 300, publish: true, history: true, presence: true })
find room:1 =100,300,phs;chat=10000,2592000,;a-_9=1,1,sp => None
find news =100,300,phs; => unreadable
find last:x *99*n#=1000,2592000,phs;*last=1,1, => Some(Settings { size: 1, seconds: 1, publish: false, history: false, presence: false })
user t9 t9=ann;T-_=bob => Some("ann")
user t9 a=b; => unreadable
user last *99*n#=ann;*last=bob => Some("bob")
lent *65000*1* => {"push":{"channel":"news","pub":{"data":*65000*1*,"info":{"client":"0-1-1","user":"ann"},"offset":7}}}
unsubscribe 2500 news => {"push":{"channel":"news","unsubscribe":{"code":2500,"reason":"insufficient state"}}}
epoch aZ9 => aZ9
memory => out of memory"#;

#[test]
fn calls(rt: HostRuntime) {
    are_so(&rt, rt.alloc(), "texts/protocol/calls", &mut ByName, ROWS);
}
