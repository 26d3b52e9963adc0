// Laws of the readers, without code: bytes are read as a value exactly when they are its layout and it is within the limits.
#![tactic(auto)]

pub use codec::Configs;
