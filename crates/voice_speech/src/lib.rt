// What the parts of the decoder hand to each other: what is received, which every attempt is lent. An attempt answers with the speech that it hears, or
// with none (specs/Heard.antt).

#![tactic(auto)]

mod received;

pub use received::Received;
