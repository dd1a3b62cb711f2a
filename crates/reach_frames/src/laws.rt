// What follows from the definitions alone.
ghost use Rattle.std.specs.Prelude.{List, [], ◌∷◌, ◌++◌};
ghost use Rattle.reach_frames.specs.Levels.{frames_of, AreWitnesses};
ghost use Rattle.reach_frames.specs.Systems.{AreSound};
ghost use Rattle.reach_frames.specs.declared.level.KeptClause.{KeptClause};

use crate::Machine;

/// A law of the definitions: no frames are sound, and sound frames stay so with one more behind them, without clauses.
pub fn frames_law<M: Machine>(_machine: &M)
    ensures none { AreSound (M.system _machine.now) (frames_of []) × AreWitnesses (M.system _machine.now) [] }
    ensures more { (levels : List (List KeptClause)) → AreSound (M.system _machine.now) (frames_of levels)
        → AreSound (M.system _machine.now) (frames_of (levels ++ [] ∷ [])) }
    ensures noted { (levels : List (List KeptClause)) → AreWitnesses (M.system _machine.now) levels
        → AreWitnesses (M.system _machine.now) (levels ++ [] ∷ []) }
{}
