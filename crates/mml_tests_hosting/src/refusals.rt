//! Tests in which one request for memory after another is refused. The answer must be the usual one, or say that memory
//! ran out, and nothing may be lost.
mod asking;
mod halting;
mod library;
mod replies;
mod untouched;

/// A limit on the tries. The nth try refuses the nth request for memory, and no tried call makes so many requests.
const MOST: usize = 100_000;
