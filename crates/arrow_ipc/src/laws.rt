//! Laws of what bytes denote: functions with nothing to run, whose contract is the law.
ghost use Rattle.std.specs.Prelude.{◌≡◌, ◌≤◌, ℕ, List, Result, Ok, MatchResult};
ghost use Rattle.arrow_ipc.specs.Schema.{SchemaTree, schema_tree, message_in, footer_in, schema_of_message, schema_of_footer, Meets};
ghost use Rattle.arrow_ipc.specs.Denotes.{StreamDenotes, FileDenotes, IsStreamOf};
ghost use Rattle.arrow_ipc.specs.declared.fault.IpcError.{IpcError};
ghost use Rattle.arrow_ipc.specs.declared.fault.IpcError.TheVariants.{OutOfMemory};
ghost use Rattle.arrow_ipc.specs.declared.schema.Schema.{Schema};

/// A law: what a message or a footer denotes at some number of levels it denotes at more levels, and takes as much there of a
/// budget. There is nothing to run.
#[tactic(auto, using(crate::proofs::Told::message_more, crate::proofs::Told::footer_more))]
pub fn more_levels_read_the_same()
    ensures message { (bytes : List ℕ) (levels more : ℕ) → levels ≤ more → (v : SchemaTree × ℕ)
        → schema_of_message levels bytes ≡ Ok v → schema_of_message more bytes ≡ Ok v }
    ensures footer { (bytes : List ℕ) (levels more : ℕ) → levels ≤ more → (v : SchemaTree × ℕ)
        → schema_of_footer levels bytes ≡ Ok v → schema_of_footer more bytes ≡ Ok v }
{}

/// A law: a stream denotes one schema at most, and so does a file. There is nothing to run.
pub fn schema_is_unique()
    ensures stream { (stream : List ℕ) (s t : SchemaTree) → StreamDenotes stream s → StreamDenotes stream t → s ≡ t }
    ensures file { (file : List ℕ) (s t : SchemaTree) → FileDenotes file s → FileDenotes file t → s ≡ t }
{}

/// A law: the schema that is read of a stream or of a file, at whatever limit of levels, is the one that it denotes. There is
/// nothing to run.
#[tactic(auto, using(crate::proofs::Told::read_is_denoted))]
pub fn read_is_denoted()
    ensures stream { (levels : ℕ) (stream : List ℕ) (s : Schema) → Meets (message_in stream) (schema_of_message levels) (Ok s)
        → StreamDenotes stream (schema_tree s) }
    ensures file { (levels : ℕ) (file : List ℕ) (s : Schema) → Meets (footer_in file) (schema_of_footer levels) (Ok s)
        → FileDenotes file (schema_tree s) }
{}

/// A law: a stream that `write_schema` wrote denotes the schema that it was given, and what `read_schema` answers of that stream is that
/// schema, or out of memory. There is nothing to run.
#[tactic(auto, using(crate::proofs::Told::written_is_read))]
pub fn written_is_read()
    ensures denoted { (levels : ℕ) (stream : List ℕ) (s : SchemaTree) → IsStreamOf levels stream s → StreamDenotes stream s }
    ensures read { (levels : ℕ) (stream : List ℕ) (s : SchemaTree) (result : Result Schema IpcError) → IsStreamOf levels stream s
        → Meets (message_in stream) (schema_of_message levels) result → MatchResult result (λ t. schema_tree t ≡ s) (λ e. e ≡ OutOfMemory) }
{}
