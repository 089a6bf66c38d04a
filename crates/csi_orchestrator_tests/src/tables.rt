//! What an orchestrator is to answer, by the rules of the lifecycle, and what it then knows: a table a module, of rows each of which begins
//! with a new orchestrator.
mod beginnings;
mod listing;
mod losses;
mod refusals;
mod worked;
