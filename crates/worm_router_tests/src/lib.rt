//! Worked cases of the public functions of routers, of their allocators and records, and of the meshes and routes by
//! which they send flits on.
//!
//! They stand apart from what they test because a crate with tests is proved twice, with them and without, and all
//! others stand on these.
#![tactic(auto)]

#[cfg(test)]
mod cases;
#[cfg(test)]
mod mesh;
#[cfg(test)]
mod records;
#[cfg(test)]
mod route;
#[cfg(test)]
mod router;
#[cfg(test)]
mod swalloc;
#[cfg(test)]
mod vcalloc;
