//! What threads share: links, the words of shards and the broker. Each test ends by itself, and joins its threads.
mod broker;
mod link;
mod order;
