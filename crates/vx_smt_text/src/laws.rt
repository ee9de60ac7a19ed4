// Laws of the definitions.
ghost use Rattle.std.specs.Prelude.{◌≡◌, ℕ, List};
ghost use Rattle.vx_terms.specs.Sorts.{Sort, Symbol};
ghost use Rattle.vx_smt_meaning.specs.Commands.{Command};
ghost use Rattle.vx_smt_meaning.specs.Names.{AreCommands};
ghost use Rattle.vx_smt_meaning.specs.Spelled.{Spells};
ghost use Rattle.vx_smt_text.specs.Text.{commands_text};
ghost use Rattle.vx_smt_text.specs.Unique.{AreReadable};

/// What is written, command after command, spells these commands.
pub fn written_spells()
    ensures { (cs : List Command) → AreCommands cs → Spells (commands_text cs) cs }
{}

/// Read with the sorts of their symbols, bytes spell one list of commands.
pub fn spells_once()
    ensures { (sorts : Symbol → Sort) (bytes : List ℕ) (cs ds : List Command) → AreReadable sorts cs → AreReadable sorts ds → Spells bytes cs → Spells bytes ds → cs ≡ ds }
{}
