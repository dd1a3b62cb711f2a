// What follows from the definitions alone.
ghost use Rattle.std.specs.Prelude.{ℕ, suc, ◌+◌, ◌*◌, ◌<◌, ◌≤◌, ◌^◌, ◌↔◌, ◌≡◌, ℤ, Bool as Truth, false, cond, nat_lt, nat_le, List, length, map, slice_index_or, Option, None, Some, All, IsTrue};
ghost use Rattle.std.specs.List.{list_all};
ghost use Rattle.alternating_theory.specs.Atoms.{AtomsOfPositive};
ghost use Rattle.alternating_theory.specs.Positive.{Positive, OwesWithin, met};
ghost use Rattle.gates_theory.specs.Terms.{term_size, term_within, value, Term};
ghost use Rattle.clauses.specs.Literals.{clause_within};
ghost use Rattle.clauses.specs.Models.{is_true, Assignment};
ghost use Rattle.alternating_theory.specs.Courses.{places, letter_at as letter_of_word};
ghost use Rattle.netlist.specs.Design.{marks_of, Design};
ghost use Rattle.netlist.specs.Runs.{bits_of, valuation_at, word};
ghost use Rattle.netlist.specs.Sound.{IsSound, NamesBit};
ghost use Rattle.netlist.specs.Valuations.{Agree, Begin, Move};
ghost use Rattle.netlist.specs.declared.run.Run.{Run};
ghost use Rattle.psl_tree.specs.Atoms.{AtomsOfBoolean};
ghost use Rattle.psl_tree.specs.Counts.{boolean_size};
ghost use Rattle.psl_tree.specs.Holds.{holds};
ghost use Rattle.psl_tree.specs.Letters.{letter_at};
ghost use Rattle.psl_tree.specs.Names.{AtomInRange};
ghost use Rattle.psl_tree.specs.Trees.{Boolean};
ghost use Rattle.psl_tree.specs.declared.name.Name.{Name};
ghost use Rattle.run_terms.specs.Booleans.{boolean_term};
ghost use Rattle.run_terms.specs.Combinations.{positive_term};
ghost use Rattle.run_terms.specs.Letters.{before_at, letter_after};
ghost use Rattle.run_terms.specs.Moves.{first_literals, move_terms};
ghost use Rattle.run_terms.specs.Numbers.{at_most, bits_of_number, number_of};
ghost use Rattle.run_terms.specs.Positions.{before_of, position_bits, position_width, valuation_of, HasSizes, IsPosition};
ghost use Rattle.run_terms.specs.Sizes.{positive_size, terms_size};
ghost use Rattle.run_terms.specs.Tables.{before_terms, valuation_terms};

/// A law: each choice of bits is that of a position, which has the sizes that it should have; and each position has bits.
pub fn position_law()
    ensures read { (signals base : ℕ) (values : Assignment)
        → IsPosition signals base values (before_of signals base values) (valuation_of signals base values)
        × HasSizes signals (before_of signals base values) (valuation_of signals base values) }
    ensures written { (signals base : ℕ) (values : Assignment) (before : Option (List Truth)) (valuation : List Truth)
        → HasSizes signals before valuation
        → ((bit : ℕ) → bit < position_width signals
        → values (suc (base + bit)) ≡ slice_index_or (position_bits signals before valuation) bit false)
        → IsPosition signals base values before valuation }
    ensures size { (signals : ℕ) (before : Option (List Truth)) (valuation : List Truth)
        → HasSizes signals before valuation
        → length (position_bits signals before valuation) ≡ position_width signals }
{}

/// A law: at each place of a run the letter is that of its valuation after the one before it, and so it is at each place
/// of the word that the run stands for. There the first valuation of the loop comes twice, after two others.
pub fn letter_law()
    ensures run { (run : Run) (names : List Name) (place : ℕ)
        → letter_at (bits_of run) names place ≡ letter_after names (before_at run place) (valuation_at run place) }
    ensures word { (design : Design) (run : Run) (place : ℕ) → place < places (word design run)
        → letter_of_word (word design run) place
        ≡ letter_after design.names (before_at run place) (valuation_at run place) }
    ensures places { (design : Design) (run : Run)
        → places (word design run) ≡ suc (length run.stem + length run.loop_part) }
{}

/// A law: the term of a Boolean whose atoms are in range of names says whether it holds on the letter of the position;
/// it has literals of the position alone, and at most two gates for each constructor.
pub fn boolean_law()
    ensures value { (signals base : ℕ) (names : List Name) (values : Assignment) (before : Option (List Truth))
        (valuation : List Truth) (test : Boolean) → All (NamesBit signals) names
        → AtomsOfBoolean (AtomInRange names) test → IsPosition signals base values before valuation
        → value values (boolean_term signals base test) ≡ holds (letter_after names before valuation) test }
    ensures within { (signals base variables : ℕ) (names : List Name) (test : Boolean) → All (NamesBit signals) names
        → AtomsOfBoolean (AtomInRange names) test → base + position_width signals ≤ variables
        → IsTrue (term_within variables (boolean_term signals base test)) }
    ensures size { (signals base : ℕ) (test : Boolean)
        → term_size (boolean_term signals base test) ≤ 2 * boolean_size test }
{}

/// A law: the term of a positive combination says whether the letter of the position meets it with the values of the
/// owed terms; it has their literals and those of the position alone, and at most two gates for each constructor and
/// what each owed term takes.
pub fn combination_law()
    ensures value { (signals base : ℕ) (names : List Name) (values : Assignment) (before : Option (List Truth))
        (valuation : List Truth) (owed : ℕ → Term) (positive : Positive) → All (NamesBit signals) names
        → AtomsOfPositive (AtomInRange names) positive → IsPosition signals base values before valuation
        → value values (positive_term signals base owed positive)
        ≡ met positive (letter_after names before valuation) (λ number. value values (owed number)) }
    ensures within { (signals base variables count : ℕ) (names : List Name) (owed : ℕ → Term) (positive : Positive)
        → All (NamesBit signals) names → AtomsOfPositive (AtomInRange names) positive → OwesWithin 0 count positive
        → base + position_width signals ≤ variables
        → ((number : ℕ) → number < count → IsTrue (term_within variables (owed number)))
        → IsTrue (term_within variables (positive_term signals base owed positive)) }
    ensures size { (signals base count most : ℕ) (owed : ℕ → Term) (positive : Positive)
        → OwesWithin 0 count positive → ((number : ℕ) → number < count → term_size (owed number) ≤ most)
        → term_size (positive_term signals base owed positive) ≤ (2 + most) * positive_size positive }
{}

/// A law: the terms of the tables are true just where the tables agree with the valuation of the position, and those
/// over the valuation before just where they agree with it, if there is one. They have literals of the position alone,
/// and at most two gates for each mark and four or five for each table.
pub fn table_law()
    ensures now { (design : Design) (base : ℕ) (values : Assignment) (before : Option (List Truth))
        (valuation : List Truth) → IsSound design → IsPosition design.signals base values before valuation
        → IsTrue (list_all (value values) (valuation_terms design.signals base design.tables))
        ↔ Agree design.tables valuation }
    ensures before { (design : Design) (base : ℕ) (values : Assignment) (before : Option (List Truth))
        (valuation : List Truth) → IsSound design → IsPosition design.signals base values before valuation
        → IsTrue (list_all (value values) (before_terms base design.tables))
        ↔ ((previous : List Truth) → before ≡ Some previous → Agree design.tables previous) }
    ensures within { (design : Design) (base variables : ℕ) → IsSound design
        → base + position_width design.signals ≤ variables
        → IsTrue (list_all (term_within variables) (valuation_terms design.signals base design.tables))
        × IsTrue (list_all (term_within variables) (before_terms base design.tables)) }
    ensures size { (design : Design) (base : ℕ) → IsSound design
        → (terms_size (valuation_terms design.signals base design.tables)
        ≤ 2 * marks_of design.tables + 4 * length design.tables)
        × (terms_size (before_terms base design.tables) ≤ 2 * marks_of design.tables + 5 * length design.tables) }
{}

/// A law: the terms of moves are true just where the valuation before the next position is the one here and the latches
/// move, and the literals of a first position just where no valuation is before and the latches have their first values.
pub fn move_law()
    ensures moves { (design : Design) (base next : ℕ) (values : Assignment) (before after : Option (List Truth))
        (valuation later : List Truth) → IsSound design → IsPosition design.signals base values before valuation
        → IsPosition design.signals next values after later → HasSizes design.signals before valuation
        → HasSizes design.signals after later
        → IsTrue (list_all (value values) (move_terms design.signals base next design.latches))
        ↔ ((after ≡ Some valuation) × Move design.latches valuation later) }
    ensures first { (design : Design) (base : ℕ) (values : Assignment) (before : Option (List Truth))
        (valuation : List Truth) → IsSound design → IsPosition design.signals base values before valuation
        → IsTrue (list_all (is_true values) (first_literals design.signals base design.latches))
        ↔ ((before ≡ None) × Begin design.latches valuation) }
    ensures within { (design : Design) (base next variables : ℕ) → IsSound design
        → base + position_width design.signals ≤ variables → next + position_width design.signals ≤ variables
        → IsTrue (list_all (term_within variables) (move_terms design.signals base next design.latches))
        × IsTrue (clause_within variables (first_literals design.signals base design.latches)) }
    ensures size { (design : Design) (base next : ℕ)
        → terms_size (move_terms design.signals base next design.latches)
        ≤ 3 * design.signals + 3 * length design.latches }
{}

/// A law: the comparison of two numbers of as many bits says whether the first is at most the other, or is less where
/// `strict` is true; it takes four gates a bit. So many bits stand for each number that fits.
pub fn number_law()
    ensures value { (values : Assignment) (strict : Term) (firsts seconds : List ℤ) → length firsts ≡ length seconds
        → value values (at_most strict firsts seconds)
        ≡ (let first = number_of (map (is_true values) firsts) in
        let second = number_of (map (is_true values) seconds) in
        cond (value values strict) (nat_lt first second) (nat_le first second)) }
    ensures within { (variables : ℕ) (strict : Term) (firsts seconds : List ℤ)
        → IsTrue (term_within variables strict) → IsTrue (clause_within variables firsts)
        → IsTrue (clause_within variables seconds) → IsTrue (term_within variables (at_most strict firsts seconds)) }
    ensures size { (strict : Term) (firsts seconds : List ℤ) → length firsts ≡ length seconds
        → term_size (at_most strict firsts seconds) ≡ term_size strict + 4 * length firsts }
    ensures bits { (width number : ℕ) → number < 2 ^ width
        → (number_of (bits_of_number width number) ≡ number) × (length (bits_of_number width number) ≡ width) }
    ensures below { (bits : List Truth) → number_of bits < 2 ^ length bits }
{}

/// A law: a netlist has no more inputs, latches and tables together than signals.
pub fn driver_law()
    ensures { (design : Design) → IsSound design
        → length design.inputs + length design.latches + length design.tables ≤ design.signals }
{}
