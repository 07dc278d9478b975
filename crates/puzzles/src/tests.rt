//! Runs over examples, and the program beside slow tests of its own.

mod cuts;
mod fakes;
mod grades;
mod makings;
mod rows;
mod runs;
mod solutions;
mod traces;
mod words;
