//! Whole conversations of a client: behind the arrow of a call stands its text, and behind that of a text what the application
//! gets from it.
use crate::rows::{Subject, Table, Told, call_of};
use cf_client::{AppEvent, Client, ClientFault};
use cf_protocol::Position;
use std::alloc::Global;

/// Tells an event, which a semicolon ends.
fn tell(told: &mut Told, event: &AppEvent) {
    match event {
        AppEvent::Subscribed {
            channel,
            was_recovering,
            recovered,
            position: Position { epoch, offset },
        } => told.tell(format_args!(
            "subscribed {channel} {was_recovering} {recovered} {epoch} {offset};"
        )),
        AppEvent::Published {
            channel,
            position: Position { epoch, offset },
            body,
        } => told.tell(format_args!("published {channel} {epoch} {offset} {body};")),
        AppEvent::Listed {
            channel,
            position: Position { epoch, offset },
            count,
        } => told.tell(format_args!("listed {channel} {epoch} {offset} {count};")),
        AppEvent::Resubscribing { channel, code } => {
            told.tell(format_args!("resubscribing {channel} {code};"));
        }
        AppEvent::Refused { channel, code } => {
            told.tell(format_args!("refused {channel} {code};"));
        }
        AppEvent::PongDue => told.tell("pong due;"),
    }
}

/// Tells the events that the application gets from a text.
fn hear(told: &mut Told, client: &mut Client, text: &str) {
    match client.on_text(text) {
        Ok(events) => {
            for event in &events {
                tell(told, event);
            }
        }
        Err(fault) => told.tell(fault),
    }
}

/// The text of a publish to `news`, or of one under a key, which stands before the data.
fn put(client: &mut Client, name: &str, passed: &str) -> Result<String, ClientFault> {
    match (name, passed.split_once(' ')) {
        ("put_key", Some((key, data))) => client.put_key("news", key, data),
        _ => client.put("news", passed),
    }
}

/// Whether a channel is asked for, and listed twice.
fn is_crowded(client: &mut Client, channel: &str) -> bool {
    client.ask(channel).is_ok()
        && client.list(channel, -1).is_ok()
        && client.list(channel, -1).is_ok()
}

/// So many channels are.
fn crowd(told: &mut Told, alloc: Global, client: &mut Client, count: &str) {
    for number in 0..told.number(count) {
        let is_so = match format!(in alloc; "c{number}") {
            Ok(channel) => is_crowded(client, channel.as_str()),
            Err(_) => false,
        };
        if !is_so {
            return told.tell(number);
        }
    }
    told.tell("done");
}

/// Tells where a channel stands.
fn tell_position(told: &mut Told, client: &Client, channel: &str) {
    match client.position(channel) {
        Some(Position { epoch, offset }) => told.tell(format_args!("{epoch} {offset}")),
        None => told.tell("none"),
    }
}

/// A call, by its name; `hear` is `on_text`, and `crowd COUNT` asks for so many channels, and lists each twice.
impl Subject for Client {
    fn play(&mut self, alloc: Global, done: &str, told: &mut Told) {
        let (name, passed) = call_of(done);
        match name {
            "hear" => hear(told, self, passed),
            "connect" => told.answer(self.connect(passed)),
            "ask" => told.answer(self.ask(passed)),
            "ask_from" => told.answer(self.ask_from(passed)),
            "leave" => told.answer(self.leave(passed)),
            "list" => told.answer(self.list(passed, -1)),
            "put" | "put_key" => told.answer(put(self, name, passed)),
            "crowd" => crowd(told, alloc, self, passed),
            "is_idle" => told.is_so(self.is_idle(passed)),
            "position" => tell_position(told, self, passed),
            "reconnect" => {
                self.reconnect();
                told.tell("done");
            }
            _ => told.tell("no call"),
        }
    }
}

/// Each part by a client of its own.
const CONVERSATIONS: &str = r#"# commands
connect t => {"connect":{"token":"t"},"id":1}
ask news => {"id":2,"subscribe":{"channel":"news"}}
put {"t":1} => {"id":3,"publish":{"channel":"news","data":{"t":1}}}
list news => {"history":{"channel":"news","limit":-1},"id":4}
leave news => {"id":5,"unsubscribe":{"channel":"news"}}
ask_from news => {"id":6,"subscribe":{"channel":"news"}}
put_key k 1 => {"id":7,"publish":{"channel":"news","data":1,"key":"k"}}
put_key  1 => {"id":8,"publish":{"channel":"news","data":1}}

# answers: a publish, a history, an answer to an ask that is answered already, and a publication to a channel that is live no more
connect => {"connect":{},"id":1}
ask_from news => {"id":2,"subscribe":{"channel":"news"}}
hear {"id":2,"subscribe":{"epoch":"aaaa","offset":0,"positioned":true,"recoverable":true}} => subscribed news false false aaaa 0;
put 1 => {"id":3,"publish":{"channel":"news","data":1}}
list news => {"history":{"channel":"news","limit":-1},"id":4}
hear {"id":2,"subscribe":{"epoch":"aaaa","offset":0}} => nothing
hear {"push":{"channel":"news","pub":{"data":{"t":1},"offset":1}}} => published news aaaa 1 {"t":1};
hear {} => pong due;
hear {"error":{"code":103,"message":"permission denied"},"id":3} => refused news 103;
hear {"history":{"epoch":"aaaa","offset":1,"publications":[{"data":1,"offset":1}]},"id":4} => listed news aaaa 1 1;
hear {"push":{"channel":"news","unsubscribe":{"code":2500,"reason":"insufficient state"}}} => resubscribing news 2500;
hear {"push":{"channel":"news","pub":{"data":{"t":1},"offset":1}}} => nothing

# every kind of reply and push
connect => {"connect":{},"id":1}
ask_from news => {"id":2,"subscribe":{"channel":"news"}}
hear {"id":2,"subscribe":{"epoch":"aaaa","offset":0,"positioned":true,"recoverable":true}} => subscribed news false false aaaa 0;
list news => {"history":{"channel":"news","limit":-1},"id":3}
hear {"connect":{"client":"0-1-1"},"id":1} => nothing
hear {"id":9,"publish":{}}{"id":9,"unsubscribe":{}} => nothing
hear {"id":9,"presence":{"presence":{"0-1-1":{"client":"0-1-1"}}}} => nothing
hear {"id":9,"presence_stats":{"num_clients":1,"num_users":1}} => nothing
hear {"id":9,"ping":{}} => nothing
hear {"error":{"code":100},"id":9} => nothing
hear {"history":{"epoch":"aaaa","offset":7},"id":3} => listed news aaaa 7 0;
hear {"history":{"epoch":"aaaa","offset":7},"id":3} => nothing
hear {"push":{"channel":"news","join":{"info":{}}}} => nothing
hear {"push":{"channel":"other","pub":{"data":1,"offset":1}}} => nothing
hear {}{} => pong due;pong due;
hear {"push":{"channel":"news","pub":{"data":1,"info":{"client":"0-1-1","user":"ann"},"offset":1}}} => published news aaaa 1 1;
hear {"push":{"channel":"news","unsubscribe":{"code":2499}}} => nothing
ask news => {"id":4,"subscribe":{"channel":"news"}}
hear {"error":{"code":105},"id":4} => refused news 105;

# client_goes_on from its last position, leaves, passes over the answer to an ask that was given up, and asks again
connect => {"connect":{},"id":1}
ask_from news => {"id":2,"subscribe":{"channel":"news"}}
hear {"id":2,"subscribe":{"epoch":"aaaa","offset":0,"positioned":true,"recoverable":true}} => subscribed news false false aaaa 0;
hear {"push":{"channel":"news","pub":{"data":1,"offset":1}}} => published news aaaa 1 1;
reconnect => done
connect => {"connect":{},"id":1}
ask_from news => {"id":2,"subscribe":{"channel":"news","epoch":"aaaa","offset":1,"recover":true}}
leave news => {"id":3,"unsubscribe":{"channel":"news"}}
hear {"id":2,"subscribe":{"epoch":"aaaa","offset":0,"positioned":true,"recoverable":true}} => nothing
ask_from news => {"id":4,"subscribe":{"channel":"news","epoch":"aaaa","offset":1,"recover":true}}
hear {"id":4,"subscribe":{"epoch":"aaaa","offset":2,"publications":[{"data":2,"offset":2}],"recovered":true,"was_recovering":true}} => subscribed news true true aaaa 2;published news aaaa 2 2;

# a text that is none, whether the client is connected or not
hear nonsense => unreadable
hear {} => not now
connect => {"connect":{},"id":1}
hear nonsense => unreadable

# a reply of 300 publications
connect => {"connect":{},"id":1}
ask_from news => {"id":2,"subscribe":{"channel":"news"}}
hear {"id":2,"subscribe":{"epoch":"aaaa","offset":300,"recovered":true,"publications":[*299*{"data":1,"offset":1},*{"data":1,"offset":300}]}} => subscribed news false true aaaa 300;*299*published news aaaa 1 1;*published news aaaa 300 1;

# long texts
connect *65000*1* => {"connect":{"token":"*65000*1*"},"id":1}
ask *65000*1* => {"id":2,"subscribe":{"channel":"*65000*1*"}}
put *65000*1* => {"id":3,"publish":{"channel":"news","data":*65000*1*}}

# a hundred channels with two calls each
connect => {"connect":{},"id":1}
crowd 100 => done

# client_refusals: an ask before a connect, an ask of a channel that is asking, a leave of an idle one, and a text that is no frame
ask news => not now
connect => {"connect":{},"id":1}
leave news => not now
ask news => {"id":2,"subscribe":{"channel":"news"}}
ask news => not now
hear [] => unreadable
hear {} => pong due;
is_idle news => no
leave news => {"id":3,"unsubscribe":{"channel":"news"}}
is_idle news => yes
hear {"id":2,"subscribe":{"epoch":"aaaa","offset":0}} => nothing
is_idle news => yes
position news => none"#;

#[test]
fn conversations(rt: HostRuntime) {
    let mut table = Table::new(rt.alloc(), "state/client");
    for part in CONVERSATIONS.split("\n\n") {
        let mut client = Client::new(rt.alloc());
        table.play(&mut client, part);
        table.part_ends();
    }
    table.ends(&rt);
}
