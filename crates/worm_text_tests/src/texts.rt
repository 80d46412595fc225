//! The worked faults of both texts, texts that are accepted, and texts that are cut off.

mod hostile;
mod limits;
mod network;
mod strange;
mod traffic;
