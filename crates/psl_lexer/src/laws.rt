ghost use Rattle.std.specs.Prelude.{◌≡◌, ◌≢◌, ℕ, List};
ghost use Rattle.psl_lexer.specs.declared.token.Token.{Token};
ghost use Rattle.psl_lexer.specs.declared.fault.LexFault.{LexFault};
ghost use Rattle.psl_lexer.specs.declared.fault.LexFault.TheVariants.{NoMemory as MemoryFault};
ghost use Rattle.psl_lexer.specs.Lexed.{IsLexed};
ghost use Rattle.psl_lexer.specs.Faults.{IsFirstFault};

/// A law, which runs nothing: a text has one list of tokens at most, or one fault, and never both. So
/// `lex` gives the only answer but for want of memory.
pub fn one_answer()
    ensures one_list { (text : List ℕ) (first second : List Token) →
        IsLexed text first → IsLexed text second → first ≡ second }
    ensures one_fault { (text : List ℕ) (first second : LexFault) →
        first ≢ MemoryFault → second ≢ MemoryFault → IsFirstFault text first → IsFirstFault text second → first ≡ second }
    ensures not_both { (text : List ℕ) (tokens : List Token) (fault : LexFault) →
        IsLexed text tokens → fault ≢ MemoryFault → IsFirstFault text fault → ⊥ }
{}
