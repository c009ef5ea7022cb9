//! Laws of names. A caller calls a law to know it; the call takes no memory and no time.

ghost use Rattle.std.specs.Prelude.{List, map};
ghost use Rattle.trees.specs.declared.location.SourceLocation.{SourceLocation};
ghost use Rattle.trees.specs.declared.module.Module.{Module as Module'};
ghost use Rattle.trees.specs.Modules.{ModuleTree, module_tree_of};
ghost use Rattle.names.specs.declared.fault.Limit.{Limit};
ghost use Rattle.names.specs.declared.fault.NameFault.{NameFault};
ghost use Rattle.names.specs.declared.fault.NameFault.TheVariants as faults;
ghost use Rattle.names.specs.declared.gather.ModuleTables.{ModuleTables};
ghost use Rattle.names.specs.Faults.{IsNamesFault, IsSameLocation, ReportsAlike};
ghost use Rattle.names.specs.First.{IsFirstExports, IsFirstSpot, IsPassedLimitAt, all_written};
ghost use Rattle.names.specs.ByNumber.{scopes_from};
ghost use Rattle.names.specs.Modules.{AreDifferent, AreFew, AreNamed, OccursIn, names_in};
ghost use Rattle.names.specs.Names.{IsApart};
ghost use Rattle.names.specs.Scopes.{meanings, scopes};
ghost use Rattle.names.specs.proving.Gathering.{HasGathered, IsNamingFault};
ghost use Rattle.names.specs.proving.Ready.{AreThere, IsReady};
ghost use Rattle.names.specs.proving.Standing.{AreExportsSound, IsExportsFault};

/// Modules whose names have a fault do not fulfil the rules on names, or are too many.
pub fn lemma_name_faults_exclude()
    ensures { (ms : List ModuleTree) (e : NameFault) → IsNamesFault ms e → AreNamed ms → AreFew ms → ⊥ }
{}

/// If no name has two meanings in a module, no module imports a name that it assigns.
pub fn lemma_apart()
    ensures { (ms : List ModuleTree) →
        ((m : ModuleTree) → OccursIn ms m → AreDifferent (names_in m)) →
        IsApart (scopes_from 0 0 ms) }
{}

/// What is gathered from modules refers only to types, values, assignments and modules that are there.
pub fn lemma_ready()
    ensures { (ms : List ModuleTree) (g : ModuleTables) → HasGathered ms g → IsReady g }
{}

/// Modules refer only to types, values, assignments and modules that are there.
pub fn lemma_all_there()
    ensures { (ms : List ModuleTree) → AreThere ms }
{}

/// Modules fulfil the rules on names if, in what is gathered from them, exports are assigned and imports are offered. A
/// fault of what is gathered is a fault of the modules.
pub fn lemma_all_named()
    ensures named { (ms : List ModuleTree) (g : ModuleTables) →
        HasGathered ms g →
        AreExportsSound (scopes g.modules.entries) →
        AreNamed ms }
    ensures fault { (ms : List ModuleTree) (g : ModuleTables) (e : NameFault) →
        HasGathered ms g →
        IsExportsFault (scopes g.modules.entries) e →
        IsNamingFault ms e }
{}

/// Modules have at most one first fault of each kind: two that are first are of one rule, module, name and offset.
/// Modules that are few pass no limit, and modules with distinct names have no name that is given twice.
pub fn one_first_fault()
    ensures limit { (ws : List Module') (e f : NameFault) →
        IsPassedLimitAt ws e →
        IsPassedLimitAt ws f →
        ReportsAlike e f }
    ensures few { (ws : List Module') (l : Limit) (s : SourceLocation) →
        IsPassedLimitAt ws (faults.Limit l s) →
        AreFew (map module_tree_of ws) →
        ⊥ }
    ensures twice { (ws : List Module') (s t : SourceLocation) →
        IsFirstSpot ws s →
        IsFirstSpot ws t →
        IsSameLocation s t }
    ensures different { (ws : List Module') (s : SourceLocation) →
        IsFirstSpot ws s →
        AreDifferent (map (λ m. m.name) (map module_tree_of ws)) →
        ((m : ModuleTree) → OccursIn (map module_tree_of ws) m → AreDifferent (names_in m)) →
        ⊥ }
    ensures offers { (ws : List Module') (e f : NameFault) →
        IsFirstExports (scopes_from 0 0 (map module_tree_of ws)) (all_written ws) e →
        IsFirstExports (scopes_from 0 0 (map module_tree_of ws)) (all_written ws) f →
        ReportsAlike e f }
{}
