ghost use Rattle.std.specs.Prelude.{◌≡◌, Some, None, [], ◌∷◌, ◌++◌, codes};
ghost use Rattle.mr_base.specs.declared.errno.Errno.TheVariants as errno;
ghost use Rattle.mr_model.specs.Deeds.{Received, Ticked};
ghost use Rattle.mr_model.specs.declared.request.Request.TheVariants as request;
ghost use Rattle.smc_conf.specs.WorkedConfigurations.{text};
ghost use Rattle.smc_core.specs.Driving.{Start, Poll, Tick, Command, smc};
ghost use Rattle.smc_core.specs.Worked.{office_machine, office_answers, office_day};
ghost use Rattle.smc_core.specs.Worked.{session_machine, session, session_says};
ghost use Rattle.smc_core.specs.Worked.{city_machine, city_routes, film_shown, film_shown_twice};
ghost use Rattle.smc_core.specs.Worked.{learn_news, news_learned};
ghost use Rattle.smc_core.specs.Worked.{says, does, answers_to, yes_reply, refusal, told};
ghost use Rattle.smc_core.specs.Worked.{film_told, learn_film, film_learned, film_goes, news_goes};
ghost use Rattle.smc_core.specs.Worked.{good, refused, add_vif, add_mfc, del_mfc};
ghost use Rattle.smc_core.specs.Worked.{no_cache, wrong_vif, host, sender, news, film};

/// Worked rows of the routing machine: its contract says what commands and reports make it do, and
/// what it says. It does nothing.
pub fn worked_rows()
    ensures office { (smc office_machine (Start ∷ Poll 4 ∷ []) office_answers).deeds ≡ office_day }
    ensures session_asks { (smc session_machine session []).deeds
        ≡ good request.Init ∷ good (add_vif 0 1) ∷ good (add_vif 1 2)
        ∷ good (add_mfc sender news 0 (0 ∷ 1 ∷ []) 30) ∷ good request.Finish ∷ [] }
    ensures session_says { (smc session_machine session []).text ≡ session_says }
    ensures start { (smc city_machine (Start ∷ Tick 5 ∷ []) []).deeds
        ≡ good request.Init ∷ good (add_vif 0 1) ∷ good (add_vif 1 3)
        ∷ good (add_mfc sender news 0 (0 ∷ 1 ∷ []) 30) ∷ Ticked 5 ∷ [] }
    ensures start_refused { (smc city_machine (Start ∷ Command (codes "flush") ∷ [])
        (yes_reply ∷ refusal errno.NotAvailable ∷ refusal errno.InUse ∷ [])).text
        ≡ codes "error 99\nok\n" }
    ensures not_running { (smc city_machine
        (Command (codes "show") ∷ Command [] ∷ Command (codes "start now") ∷ []) []).text
        ≡ codes "error not running\nerror not running\nerror usage\n" }
    ensures running { says
        (codes "start" ∷ codes "start now" ∷ codes " \t" ∷ codes "stop" ∷ [])
        ≡ codes "error running\nerror running\nerror usage\nerror usage\n" }
    ensures show { says (codes "show" ∷ codes "show\troutes " ∷ [])
        ≡ city_routes ++ codes "ok\n" ++ city_routes ++ codes "ok\n" }
    ensures show_groups { says (codes "show groups" ∷ [])
        ≡ codes "group eth1 * 239.1.1.1\ngroup eth0 10.0.0.9 239.0.0.0/8\nok\n" }
    ensures show_interfaces { says (codes "show interfaces" ∷ [])
        ≡ codes "0 eth0 3\n1 eth2 1\nok\n" }
    ensures show_usage { says
        (codes "show all" ∷ codes "show routes groups" ∷ codes "poll #" ∷ codes "poll" ∷ [])
        ≡ codes "error usage\nerror usage\nerror usage\nok\n" }
    ensures learns { does (Poll 1 ∷ []) learn_film ≡ film_learned }
    ensures no_rule { does (Poll 3 ∷ [])
        (told (no_cache 1 host film) ∷ told (wrong_vif 0 host film) ∷ [])
        ≡ Received (Some (no_cache 1 host film)) ∷ Received (Some (wrong_vif 0 host film))
        ∷ Received None ∷ [] }
    ensures learned_shown { answers_to (Poll 2 ∷ Command (codes "show") ∷ []) learn_film
        ≡ film_shown }
    ensures learned_twice { answers_to (Poll 1 ∷ Poll 1 ∷ Command (codes "show") ∷ [])
        (learn_film ++ learn_film) ≡ film_shown_twice }
    ensures removed_twice { does
        (Poll 1 ∷ Poll 1 ∷ Command (codes "remove eth0 239.2.0.0/16") ∷ [])
        (learn_film ++ learn_film)
        ≡ film_learned ++ film_learned ++ film_goes ∷ film_goes ∷ [] }
    ensures handed_on { does (Poll 1 ∷ Command (codes "add eth0 239.2.0.0/16 eth0")
        ∷ Command (codes "remove eth0 239.2.0.0/16") ∷ []) learn_film
        ≡ film_learned ++ film_goes ∷ [] }
    ensures outlives { does (Poll 1 ∷ Command (codes "remove eth0 10.0.0.9 239.1.1.1")
        ∷ Command (codes "flush") ∷ []) learn_news
        ≡ news_learned ++ news_goes ∷ news_goes ∷ [] }
    ensures refused_unlearned { answers_to (Poll 1 ∷ Poll 1 ∷ Command (codes "show") ∷ [])
        (learn_film ++ told film_told ∷ refusal errno.NoBuffers ∷ []) ≡ film_shown }
    ensures add { says (codes "add eth2 10.0.0.9/8 224.0.0.1/4 eth0 eth2" ∷ codes "show" ∷ [])
        ≡ codes "ok\n" ++ city_routes
        ++ codes "route eth2 10.0.0.0/8 224.0.0.0/4 eth0,eth2\nok\n" }
    ensures add_again { does (Command (codes "add eth0 10.0.0.9 239.1.1.1 eth0") ∷ []) []
        ≡ good (add_mfc sender news 0 [] 32) ∷ [] }
    ensures add_refused { answers_to (Command (codes "add eth2 10.0.0.9 239.1.1.1 eth0") ∷ [])
        (refusal errno.Invalid ∷ []) ≡ codes "error 22\n" }
    ensures add_usage { says (codes "add eth0 239.1.1.1" ∷ codes "add eth0 10.0.0.9 239.1.1.1" ∷ [])
        ≡ codes "error usage\nerror usage\n" }
    ensures add_address { says (codes "add eth1 10.0.0 239.1.1.1 eth0"
        ∷ codes "add eth0 10.0.0.9/33 239.1.1.1 eth0" ∷ codes "add eth0 10.1.1.1 eth0" ∷ [])
        ≡ codes "error address\nerror address\nerror address\n" }
    ensures add_interface { says
        (codes "add eth1 239.1.1.1 eth0" ∷ codes "add eth0 239.1.1.1 eth0 eth9" ∷ [])
        ≡ codes "error interface\nerror interface\n" }
    ensures remove_exact { does
        (Poll 1 ∷ Command (codes "remove eth0 10.0.0.9 239.1.1.1") ∷ []) learn_film
        ≡ film_learned ++ news_goes ∷ [] }
    ensures remove_prefix { does
        (Poll 1 ∷ Command (codes "remove eth0 239.2.0.0/16") ∷ Command (codes "flush") ∷ [])
        learn_film ≡ film_learned ++ film_goes ∷ [] }
    ensures remove_other { does (Poll 1 ∷ Command (codes "remove eth0 239.0.0.0/8") ∷ [])
        learn_film ≡ film_learned }
    ensures remove_mistakes { says (codes "remove eth0 239.1.1.1 eth2" ∷ codes "remove eth0"
        ∷ codes "remove eth0 239.1.1.1.1" ∷ codes "remove eth1 239.0.0.0/8"
        ∷ codes "remove eth0 239.1.1.1" ∷ [])
        ≡ text (codes "error usage" ∷ codes "error usage" ∷ codes "error address"
        ∷ codes "error interface" ∷ codes "error no such route" ∷ []) }
    ensures join { says (codes "join eth2 10.0.0.9 239.9.9.9"
        ∷ codes "join eth0 10.0.0.9 239.0.0.1/8" ∷ codes "show groups" ∷ [])
        ≡ text (codes "ok" ∷ codes "ok" ∷ codes "group eth1 * 239.1.1.1"
        ∷ codes "group eth0 10.0.0.9 239.0.0.0/8" ∷ codes "group eth2 10.0.0.9 239.9.9.9"
        ∷ codes "ok" ∷ []) }
    ensures leave { says (codes "leave eth0 10.0.0.9 239.0.0.0/8"
        ∷ codes "leave eth0 10.0.0.9 239.0.0.0/8" ∷ codes "leave eth1 239.1.1.1"
        ∷ codes "show groups" ∷ [])
        ≡ text (codes "ok" ∷ codes "error no such group" ∷ codes "error interface"
        ∷ codes "group eth1 * 239.1.1.1" ∷ codes "ok" ∷ []) }
    ensures flush { does (Poll 1 ∷ Command (codes "flush") ∷ Command (codes "flush") ∷ [])
        (learn_film ++ refusal errno.NoEntry ∷ [])
        ≡ film_learned ++ refused (del_mfc host film 0) errno.NoEntry ∷ [] }
    ensures reload { does
        (Poll 1 ∷ Command (codes "reload") ∷ Command (codes "reload") ∷ []) learn_film
        ≡ film_learned ++ news_goes ∷ film_goes ∷ good (request.DelVif 0)
        ∷ good (request.DelVif 1) ∷ good (add_vif 0 2) ∷ good (request.DelVif 0)
        ∷ good (add_vif 0 2) ∷ [] }
    ensures kill { does (Command (codes "kill") ∷ Command (codes "flush") ∷ [])
        (refusal errno.Access ∷ []) ≡ refused request.Finish errno.Access ∷ [] }
    ensures kill_says { answers_to
        (Command (codes "kill") ∷ Command (codes "kill") ∷ Command (codes "start") ∷ [])
        (refusal errno.Access ∷ []) ≡ codes "error 13\nerror not running\nok\n" }
    ensures start_again { does
        (Command (codes "remove eth0 10.0.0.9 239.1.1.1") ∷ Command (codes "kill") ∷ Start ∷ []) []
        ≡ news_goes ∷ good request.Finish ∷ good request.Init ∷ good (add_vif 0 1)
        ∷ good (add_vif 1 3) ∷ [] }
{}
