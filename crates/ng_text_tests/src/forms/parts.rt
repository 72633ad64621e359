// What shapes, texts and messages are made of: names, addresses, and the bytes of messages.
mod addresses;
mod bytes;
mod names;
