//! Why an engine isn't opened.
use key_tuple::NoMemory;
use settings::Setting;

/// What `Engine::open` refuses.
#[derive(Debug, Clone, Copy)]
pub enum EngineError {
    /// The first setting that is outside its limits.
    BadSize(Setting),
    /// There was no memory.
    NoMemory,
}

impl From<NoMemory> for EngineError {
    ghost use Rattle.std.specs.Prelude.{◌≡◌};
    ghost use Rattle.index_engine.specs.declared.error.EngineError.TheVariants as kind;

    ghost from_gives = { λ _ e. e ≡ kind.NoMemory };

    fn from(_refused: NoMemory) -> EngineError {
        EngineError::NoMemory
    }
}
