//! Each public function, with ample memory.

mod causes;
mod contexts;
mod copies;
mod errors;
mod fields;
mod hexadecimal;
mod mark;
mod memory_not_asked;
mod number;
mod numbers;
mod readers;
mod storage;
mod traits;
mod value;
